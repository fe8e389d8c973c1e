#[derive(Clone, Copy, PartialEq, Eq, Debug)]
pub enum Side {
    Buy,
    Sell,
}

// Why a call or a session file is sent back. docs/REFUSALS.md has the case of each.
#[derive(Clone, Copy, PartialEq, Eq, Debug)]
pub enum Refusal {
    Price,
    Shares,
    SmallOlo,
    SmallIlo,
    LargeMtv,
    SideFull,
    ArrivalsSpent,
    ShortReport,
    NotResting,
    CutShares,
    MarketNumber,
    Quotation,
    SideCells,
    FileSize,
    Contents { index: u32, place: u32 },
    Body { index: u32, place: u32 },
    ShortListing,
    Take,
}
