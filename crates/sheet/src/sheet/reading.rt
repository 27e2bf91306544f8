// A sheet from its bytes.
ghost use Rattle.std.specs.Prelude.{◌≡◌, ◌≤◌, true, false, ◌↔◌, length, is_ok, Some, OnOk};
ghost use Rattle.net.specs.Marks.{Cleared};
ghost use Rattle.listing.specs.Bytes.{yard_in};
ghost use Rattle.listing.specs.Yards.{Same};
ghost use Rattle.sheet.specs.declared.fault.SheetFault.{SheetFault as Fault};
ghost use Rattle.sheet.specs.Admitting.{Admitted, Parsed};
ghost use Rattle.sheet.specs.Reading.{WellFormed, Refused, MarksLeft, fault_of};
ghost use Rattle.sheet.specs.Sheets.{yard};

use crate::check::{first_circle, first_shared_start};
use crate::conflict::conflict_count;
use crate::fault::SheetFault;
use crate::sheet::Sheet;
use listing::content::Listing;
use net::fault::WalkFault;
use net::nets::MOST_NODES;

// The most pairs of conflicting places.
const MOST_CONFLICTS: usize = 1000;

impl Sheet {
    // Reads bytes into the sheet; a refusal leaves it as before.
    #[tactic(auto, using(crate::proofs::Exact::never_refused, crate::proofs::Exact::refused_once))]
    pub fn read(&mut self, input: &[u8], marks: &mut [u8]) -> Result<(), SheetFault>
        ensures accepted { (is_ok result ≡ true) ↔ ((96 ≤ length marks.old) × WellFormed input.now) }
        ensures refused { (f : Fault) → (fault_of result ≡ Some f) ↔ Refused input.now (length marks.old) f }
        ensures content { OnOk result (Same (yard_in input.now) (yard self.new)) }
        ensures kept { is_ok result ≡ false → self.new ≡ self.old }
        ensures marks { MarksLeft marks.old marks.new result }
    {
        *self = Sheet::parse(input, marks)?;
        Ok(())
    }

    // The sheet that bytes say.
    #[tactic(auto, using(crate::specs::Reading::short_marks, crate::proofs::Exact::parsed))]
    fn parse(input: &[u8], marks: &mut [u8]) -> Result<Sheet, SheetFault>
        ensures answer { Parsed input.now (length marks.old) result }
        ensures marks { MarksLeft marks.old marks.new result }
    {
        if marks.len() < MOST_NODES {
            return Err(SheetFault::Walk(WalkFault::ShortMarks));
        }
        let listing = Listing::read(input)?;
        Sheet::admit(listing, marks)
    }

    // Content as a sheet, if it keeps the rules of the whole yard.
    fn admit(listing: Listing, marks: &mut [u8]) -> Result<Sheet, SheetFault>
        requires { 96 ≤ length marks.old }
        ensures answer { Admitted listing result }
        ensures marks { Cleared marks.old marks.new }
    {
        if let Some(train) = first_circle(&listing, marks)? {
            return Err(SheetFault::Circle(train));
        }
        if let Some(place) = first_shared_start(&listing) {
            return Err(SheetFault::SharedStart(place));
        }
        if conflict_count(&listing) > MOST_CONFLICTS {
            return Err(SheetFault::TooManyConflicts);
        }
        Ok(Sheet { listing })
    }
}
