// The types of a board.

use market::types::Side;

// A protected quotation of an away market.
#[derive(Clone, Copy, PartialEq, Eq, Debug, Default)]
pub struct Quote {
    pub price: u32,
    pub shares: u32,
}

// A quotation with the market that has it: the best of a side, or a level of a ladder.
#[derive(Clone, Copy, PartialEq, Eq, Debug, Default)]
pub struct Best {
    pub market: u32,
    pub quote: Quote,
}

// What decides where a level stands.
#[derive(Clone, Copy)]
pub struct Rung {
    pub price: u32,
    pub market: u32,
}

// The order of a side's levels.
#[derive(Clone, Copy)]
pub struct ByPrice {
    pub side: Side,
}
