// The parts of a sheet, read where they lie in its bytes.
ghost use Rattle.std.specs.Prelude.{◌≡◌, ℕ, ◌+◌, ◌<◌, ◌≤◌, List, length};
ghost use Rattle.listing.specs.Bytes.{yard_in, listed, from_of, to_of, destination, owner_at, set_at, count_at, from_at, to_at, end_at};

use crate::place::Destination;
use std::marker::Model;

// The byte that a move has for its destination where it leads out.
const OUT: u8 = 255;

impl From<u8> for Destination {
    ghost from_gives = { λ n d. d ≡ destination n };

    fn from(byte: u8) -> Destination {
        if byte == OUT {
            Destination::Out
        } else {
            Destination::Place(usize::from(byte))
        }
    }
}

// The bytes of a sheet, which clauses see as a list.
#[derive(Drop)]
pub(crate) struct Input<'a>(pub(crate) &'a [u8]);

impl<'a> Model for Input<'a> {
    ghost Value = { List ℕ };

    ghost view = { λ input. input.0.now };
}

impl Input<'_> {
    pub(crate) fn len(&self) -> usize
        ensures { result ≡ length self.now }
    {
        self.0.len()
    }

    pub(crate) fn trains(&self) -> usize
        requires { 1 ≤ length self.now }
        ensures is { result ≡ (yard_in self.now).trains }
        ensures small { result < 256 }
    {
        usize::from(self.0[0])
    }

    pub(crate) fn places(&self) -> usize
        requires { 2 ≤ length self.now }
        ensures is { result ≡ (yard_in self.now).places }
        ensures small { result < 256 }
    {
        usize::from(self.0[1])
    }

    // The offset of the train of a place.
    pub(crate) fn owner_offset(&self, place: usize) -> usize
        requires { place < 256 }
        ensures { result ≡ owner_at self.now place }
    {
        2 + place
    }

    pub(crate) fn owner(&self, place: usize) -> usize
        requires { (place < 256) × (2 + place < length self.now) }
        ensures { result ≡ (yard_in self.now).owner place }
    {
        usize::from(self.0[self.owner_offset(place)])
    }

    // The offset of the set of a place.
    pub(crate) fn set_offset(&self, place: usize) -> usize
        requires { (2 ≤ length self.now) × (place < 256) }
        ensures { result ≡ set_at self.now place }
    {
        2 + self.places() + 8 * place
    }

    pub(crate) fn blocks(&self, place: usize) -> u64
        requires there { set_at self.now (place + 1) ≤ length self.now }
        requires sized { place < 256 }
        ensures { result ≡ (yard_in self.now).blocks place }
    {
        let at = self.set_offset(place);
        u64::from_be_bytes(*self.0[at..].first_chunk::<8>().unwrap())
    }

    // The offset of the number of moves.
    pub(crate) fn count_offset(&self) -> usize
        requires { 2 ≤ length self.now }
        ensures is { result ≡ count_at self.now }
        ensures small { result < 4096 }
    {
        2 + 9 * self.places()
    }

    pub(crate) fn moves(&self) -> usize
        requires { count_at self.now + 1 ≤ length self.now }
        ensures is { result ≡ listed self.now }
        ensures small { result < 256 }
    {
        usize::from(self.0[self.count_offset()])
    }

    pub(crate) fn from_offset(&self, index: usize) -> usize
        requires { (2 ≤ length self.now) × (index < 256) }
        ensures { result ≡ from_at self.now index }
    {
        self.count_offset() + 1 + index
    }

    pub(crate) fn to_offset(&self, index: usize) -> usize
        requires { (count_at self.now + 1 ≤ length self.now) × (index < 256) }
        ensures { result ≡ to_at self.now index }
    {
        self.count_offset() + 1 + self.moves() + index
    }

    pub(crate) fn from(&self, index: usize) -> usize
        requires there { end_at self.now ≤ length self.now }
        requires sized { (index < 256) × (index < listed self.now) }
        ensures { result ≡ from_of self.now index }
    {
        usize::from(self.0[self.from_offset(index)])
    }

    pub(crate) fn to(&self, index: usize) -> Destination
        requires there { end_at self.now ≤ length self.now }
        requires sized { (index < 256) × (index < listed self.now) }
        ensures { result ≡ destination (to_of self.now index) }
    {
        Destination::from(self.0[self.to_offset(index)])
    }
}
