//! What holds of the books, for every list of calls. Each contract is a theorem; the functions do nothing.

ghost use Rattle.firm.specs.Statements.{Balanced, TakingKeeps, OldestFirst, InThreeWays, OpenOrders, MadeCosts, EntriesStay, TurnedAway, RecipeTakingKeeps, CountedThere};

/// 1. The books balance, and the stock account is what the lots cost.
pub fn balanced_stands()
    ensures { Balanced }
{}

/// 2. Taking loses no piece and no cent, and says truly what was taken.
pub fn taking_keeps_stands()
    ensures { TakingKeeps }
{}

/// 2, for a whole recipe, of every item.
pub fn recipe_taking_keeps_stands()
    ensures { RecipeTakingKeeps }
{}

/// 3. From a younger lot nothing is taken as long as an older one of the item is left.
#[tactic(auto, using(crate::proofs::Taking::oldest_first))]
pub fn oldest_first_stands()
    ensures { OldestFirst }
{}

/// 4. Billed is never more than moved, moved never more than ordered, and paid out never more than owed.
pub fn in_three_ways_stands()
    ensures { InThreeWays }
{}

/// 5. The accounts have just what came and was not billed, and what customers were billed.
pub fn open_orders_stands()
    ensures { OpenOrders }
{}

/// 6. What is made costs what went into it, to the cent: its item's lots cost so much more.
#[tactic(auto, using(crate::proofs::Making::made_costs))]
pub fn made_costs_stands()
    ensures { MadeCosts }
{}

/// 7. Entries stay as they are.
#[tactic(auto, using(crate::proofs::Staying::entries_stay))]
pub fn entries_stay_stands()
    ensures { EntriesStay }
{}

/// 8. A call that is turned away changes no later answer.
#[tactic(auto, using(crate::proofs::Staying::turned_away))]
pub fn turned_away_stands()
    ensures { TurnedAway }
{}

/// After a count the books have as many pieces of the item as were counted, and of every other item as many as before.
pub fn counted_there_stands()
    ensures { CountedThere }
{}
