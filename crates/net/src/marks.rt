// The caller's mark bytes, held for one walk.
ghost use Rattle.std.specs.Prelude.{◌≡◌, ◌<◌, ◌≤◌, length, slice_index, slice_set};
ghost use Rattle.net.specs.Marks.{Cleared, mark_of, byte_of};

use crate::nets::MOST_NODES;

// What a walk knows of a node.
#[derive(Clone, Copy)]
pub(crate) enum Mark {
    Unseen,
    OnPath,
    Done,
}

impl From<u8> for Mark {
    ghost from_gives = { λ byte mark. mark ≡ mark_of byte };

    fn from(byte: u8) -> Mark {
        match byte {
            0 => Mark::Unseen,
            1 => Mark::OnPath,
            _ => Mark::Done,
        }
    }
}

impl From<Mark> for u8 {
    ghost from_gives = { λ mark byte. byte ≡ byte_of mark };

    fn from(mark: Mark) -> u8 {
        match mark {
            Mark::Unseen => 0,
            Mark::OnPath => 1,
            Mark::Done => 2,
        }
    }
}

// Zeroes the first 96 bytes.
fn clear(bytes: &mut [u8])
    requires { 96 ≤ length bytes.old }
    ensures { Cleared bytes.old bytes.new }
{
    bytes[..MOST_NODES].fill(0);
}

// Holds the mark bytes for one walk, and zeroes the first 96 on every way out of it.
pub(crate) struct Marks<'a> {
    bytes: &'a mut [u8],
}

impl Drop for Marks<'_> {
    fn drop(self)
        requires { 96 ≤ length self.bytes.now }
        ensures { Cleared self.entry.bytes.now self.exit.0.now }
    {
        clear(self.bytes);
        let Marks { bytes: _ } = self;
    }
}

impl<'a> Marks<'a> {
    // Zeroes the first 96 bytes, and holds them all.
    pub(crate) fn begin(bytes: &'a mut [u8]) -> Marks<'a>
        requires { 96 ≤ length bytes.old }
        ensures cleared { Cleared bytes.old result.bytes.now }
        ensures lent { result.bytes.ghost_name ≡ bytes.entry.ghost_name }
    {
        clear(bytes);
        Marks { bytes }
    }

    pub(crate) fn mark(&self, node: usize) -> Mark
        requires { node < length self.now.bytes.now }
        ensures { result ≡ mark_of (slice_index self.now.bytes.now node) }
    {
        Mark::from(self.bytes[node])
    }

    pub(crate) fn put(&mut self, node: usize, mark: Mark)
        requires { node < length self.old.bytes.now }
        ensures lent { self.new.bytes.ghost_name ≡ self.old.bytes.ghost_name }
        ensures written { self.new.bytes.now ≡ slice_set self.old.bytes.now node (byte_of mark) }
    {
        self.bytes[node] = u8::from(mark);
    }
}
