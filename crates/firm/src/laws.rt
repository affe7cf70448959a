//! Laws of the books that a program which keeps them in 64 bits leans on.

ghost use Rattle.firm.specs.Laws.{LackingIs, LotsComeToStock, ReachedFits, LotsSmall, ProductsSmall, OrdersKnown};

/// What is lacking is what was wanted less what was on hand.
#[tactic(auto, using(crate::proofs::Bounds::take_lacking))]
pub fn lacking_is_stands()
    ensures { LackingIs }
{}

/// The lots that an item is said to have come to what its stock is said to be.
pub fn lots_come_to_stock_stands()
    ensures { LotsComeToStock }
{}

/// All that is reached is within the limits.
#[tactic(auto, using(crate::proofs::Bounds::reached_fits))]
pub fn reached_fits_stands()
    ensures { ReachedFits }
{}

/// A lot that costs anything has at most 1,000,000 pieces.
pub fn lots_small_stands()
    ensures { LotsSmall }
{}

/// A lot's cost times its pieces stays below 2^63.
pub fn products_small_stands()
    ensures { ProductsSmall }
{}

/// Each order is of an item that there is, and its numbers are small.
pub fn orders_known_stands()
    ensures { OrdersKnown }
{}
