//! What stands after a call's first words.

ghost use Rattle.std.specs.Prelude.{◌≡◌};
ghost use Rattle.openings.specs.Forms.{form_of};

use wire::CallKind;

/// What stands after a call's first words: so many numbers, or a recipe.
#[derive(Clone, Copy, PartialEq, Eq, Debug)]
pub enum Form {
    One,
    Two,
    Three,
    Recipe,
}

impl From<CallKind> for Form {
    ghost from_gives = { λ k f. f ≡ form_of k };

    fn from(kind: CallKind) -> Form {
        match kind {
            CallKind::Buys | CallKind::Sells | CallKind::BilledBy => Form::Three,
            CallKind::Comes
            | CallKind::Goes
            | CallKind::Bills
            | CallKind::Makes
            | CallKind::Counted
            | CallKind::EntriesFrom => Form::Two,
            CallKind::PaysOut
            | CallKind::PaysIn
            | CallKind::StockOf
            | CallKind::Account
            | CallKind::Order
            | CallKind::LotsOf => Form::One,
            CallKind::MadeOf => Form::Recipe,
        }
    }
}
