// What a sheet is made from and asked.
ghost use Rattle.std.specs.Prelude.{◌≡◌, ◌<◌, true, ◌↔◌};
ghost use Rattle.listing.specs.Yards.{Same};
ghost use Rattle.listing.specs.Listings.{fresh};
ghost use Rattle.sheet.specs.Conflicts.{Conflict, conflict, pairs};
ghost use Rattle.sheet.specs.Counts.{own_places, moves};
ghost use Rattle.sheet.specs.Sheets.{yard};
ghost use Rattle.sheet.specs.Answers.{Longest, LongestKnown};

use crate::conflict::{conflict_count, in_conflict};
use crate::count::{move_count, places_of};
use crate::fault::TrainFault;
use crate::movement::MovementNet;
use crate::sheet::Sheet;
use listing::content::Listing;
use net::fault::WalkFault;
use net::longest::longest_way;
use net::nets::MOST_NODES;

impl Sheet {
    // One train in block 0 with one move, out.
    #[tactic(auto, using(crate::proofs::Fresh::lawful_as_fresh))]
    pub fn new() -> Sheet
        ensures { Same fresh (yard result) }
    {
        Sheet {
            listing: Listing::smallest(),
        }
    }

    // The listed content.
    pub fn listing(&self) -> &Listing
        ensures { result.now ≡ self.now.listing }
    {
        &self.listing
    }

    // Whether two places belong to different trains and share a block.
    #[tactic(auto, using(crate::proofs::Conflicting::conflict_told, crate::proofs::Conflicting::conflict_turned))]
    pub fn conflict(&self, first: usize, second: usize) -> bool
        ensures value { result ≡ conflict (yard self.now) first second }
        ensures law { (result ≡ true) ↔ Conflict (yard self.now) first second }
        ensures turned { result ≡ conflict (yard self.now) second first }
    {
        in_conflict(&self.listing, first, second)
    }

    // How many places a train has.
    pub fn places_of(&self, train: usize) -> usize
        ensures { result ≡ own_places (yard self.now) train }
    {
        places_of(&self.listing, train)
    }

    // How many moves there are; one that is listed twice counts once.
    pub fn move_count(&self) -> usize
        ensures { result ≡ moves (yard self.now) }
    {
        move_count(&self.listing)
    }

    // How many pairs of places conflict.
    pub fn conflict_count(&self) -> usize
        ensures { result ≡ pairs (yard self.now) }
    {
        conflict_count(&self.listing)
    }

    // The greatest number of blocks entered on a way of the train from a node of its movement net.
    pub fn longest_way(
        &self,
        marks: &mut [u8],
        train: usize,
        from: usize,
    ) -> Result<i32, TrainFault>
        ensures { Longest (yard self.now) train from marks.old marks.new result }
    {
        if marks.len() < MOST_NODES {
            return Err(TrainFault::Walk(WalkFault::ShortMarks));
        }
        if train >= self.listing.train_count() {
            return Err(TrainFault::UnknownTrain(train));
        }
        Ok(self.longest_from(marks, train, from)?)
    }

    // The same for a known train. The net of a train of a sheet has no circle, so there is a longest way.
    #[tactic(auto, using(crate::proofs::Kept::no_circle))]
    fn longest_from(&self, marks: &mut [u8], train: usize, from: usize) -> Result<i32, WalkFault>
        requires { train < (yard self.now).trains }
        ensures { LongestKnown (yard self.now) train from marks.old marks.new result }
    {
        Ok(longest_way(&MovementNet::of(&self.listing, train), marks, from)?.unwrap())
    }
}
