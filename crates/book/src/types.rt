use board::types::Best;

// The best quotations of an incoming order's own side and of the other.
#[derive(Clone, Copy)]
pub struct Bests {
    pub own: Option<Best>,
    pub other: Option<Best>,
}

// The lowest and the highest price of those at which an entry may trade.
#[derive(Clone, Copy)]
pub struct Prices {
    pub low: u32,
    pub high: u32,
}
