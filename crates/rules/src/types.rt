use market::types::Side;

// How an ILO treats better quotations of away markets: a Type 1 is barred by them, a Type 2 routes
// to those of the other side.
#[derive(Clone, Copy, PartialEq, Eq, Debug)]
pub enum Routing {
    Type1,
    Type2,
}

// What becomes of the residue of an ILO.
#[derive(Clone, Copy, PartialEq, Eq, Debug)]
pub enum Mark {
    Rest,
    Cancel,
}

// The four kinds of order. An OLO is an Oversize Liquidity Order, an ILO an Institutional
// Liquidity Order, with its Minimum Triggering Volume (MTV), 0 for none, as session files have it. Both
// are Program orders.
#[derive(Clone, Copy, PartialEq, Eq, Debug)]
pub enum Kind {
    Displayed,
    Dark,
    Olo,
    Ilo {
        routing: Routing,
        mtv: u32,
        mark: Mark,
    },
}

// An order. `size` is its ranking size, the shares entered less those cut; `open` are the shares
// not yet filled, routed or cancelled.
#[derive(Clone, Copy, PartialEq, Eq, Debug)]
pub struct Order {
    pub arrival: u32,
    pub side: Side,
    pub price: u32,
    pub kind: Kind,
    pub size: u32,
    pub open: u32,
}

// One row of a report: a fill against a resting order, or a route to an away market.
#[derive(Clone, Copy, PartialEq, Eq, Debug)]
pub enum Row {
    Fill {
        incoming: u32,
        resting: u32,
        price: u32,
        shares: u32,
    },
    Route {
        arrival: u32,
        market: u32,
        price: u32,
        shares: u32,
    },
}

// What an accepted call answers; a post has no figures but zeros.
#[derive(Clone, Copy, PartialEq, Eq, Debug)]
pub struct Accepted {
    pub arrival: u32,
    pub open: u32,
    pub cancelled: u32,
    pub rows: usize,
}

// The calls that change a market.
#[derive(Clone, Copy, PartialEq, Eq, Debug)]
pub enum Call {
    Enter {
        side: Side,
        price: u32,
        kind: Kind,
        shares: u32,
    },
    Cut {
        arrival: u32,
        shares: u32,
    },
    Cancel {
        arrival: u32,
    },
    Post {
        market: u32,
        side: Side,
        price: u32,
        shares: u32,
    },
}

// One row of the standing list.
#[derive(Clone, Copy, PartialEq, Eq, Debug)]
pub struct Standing {
    pub arrival: u32,
    pub side: Side,
    pub price: u32,
    pub open: u32,
}

// What decides where an order stands on its side.
#[derive(Clone, Copy, PartialEq, Eq, Debug)]
pub struct OrderKey {
    pub price: u32,
    pub class: Class,
    pub size: u32,
    pub arrival: u32,
}

// The classes of orders at one price, first to last.
#[derive(Clone, Copy, PartialEq, Eq, PartialOrd, Ord, Debug)]
pub enum Class {
    Displayed,
    Program,
    Dark,
}

// A resting order with its side and its place there.
#[derive(Clone, Copy, PartialEq, Eq, Debug)]
pub struct Located {
    pub side: Side,
    pub place: usize,
    pub order: Order,
}
