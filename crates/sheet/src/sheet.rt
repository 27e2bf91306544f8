// A sheet: listed content that keeps the rules of the whole yard.
ghost use Rattle.listing.specs.Listings.{yard};
ghost use Rattle.sheet.specs.Lawful.{Lawful};

use listing::content::Listing;

pub mod calls;
pub mod reading;

#[derive(Clone, Copy)]
pub struct Sheet {
    listing: Listing,
    ghost lawful: { ∥ Lawful (yard listing) ∥₁ },
}
