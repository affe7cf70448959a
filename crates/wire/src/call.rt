/// What people enter and ask. A recipe has the bytes of its parts: a type of parts alone would ask more of whoever makes such a call.
#[derive(Clone, Copy, PartialEq, Eq, Debug)]
pub enum Call<'a> {
    /// An order to buy: item, pieces, price each.
    Buys(u64, u64, u64),
    /// An order to sell: item, pieces, price each.
    Sells(u64, u64, u64),
    /// Pieces come of an order to buy: order, pieces.
    Comes(u64, u64),
    /// Pieces go of an order to sell: order, pieces.
    Goes(u64, u64),
    /// A supplier's bill: order, pieces, what it asks for all of them.
    BilledBy(u64, u64, u64),
    /// Our bill: order, pieces.
    Bills(u64, u64),
    /// A payment to suppliers: amount.
    PaysOut(u64),
    /// A payment by customers: amount.
    PaysIn(u64),
    /// What an item is made of from now on: item, and the bytes of the parts.
    MadeOf(u64, &'a [u8]),
    /// Pieces are made by the recipe: item, pieces.
    Makes(u64, u64),
    /// So many pieces are there: item, pieces.
    Counted(u64, u64),
    /// Asks for the pieces and the cost of an item.
    StockOf(u64),
    /// Asks for both sides of an account.
    Account(u64),
    /// Asks for the pieces moved and billed of an order.
    Order(u64),
    /// Asks for an item's lots.
    LotsOf(u64),
    /// Asks for entries: the first, how many.
    EntriesFrom(u64, u64),
}
