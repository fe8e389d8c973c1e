// What the kinds of order carry, which of them meet, and the least ranking size of each.
ghost use Rattle.std.specs.Prelude.{◌≡◌, ◌<◌};
ghost use Rattle.book.specs.Kinds.{kind_row};
ghost use Rattle.rules.specs.Orders.{mtv_of, displayed, program, type2, cancels, meets, too_small};

use rules::types::{Kind, Mark, Routing};

pub fn mtv_of(kind: Kind) -> u32
    ensures { result ≡ mtv_of kind }
{
    match kind {
        Kind::Ilo { mtv, .. } => mtv,
        _ => 0,
    }
}

pub fn is_displayed(kind: Kind) -> bool
    ensures { result ≡ displayed kind }
{
    matches!(kind, Kind::Displayed)
}

pub fn is_program(kind: Kind) -> bool
    ensures { result ≡ program kind }
{
    matches!(kind, Kind::Olo | Kind::Ilo { .. })
}

pub fn is_type2(kind: Kind) -> bool
    ensures { result ≡ type2 kind }
{
    matches!(
        kind,
        Kind::Ilo {
            routing: Routing::Type2,
            ..
        }
    )
}

// Whether the residue is cancelled, and does not rest.
pub fn is_cancelled(kind: Kind) -> bool
    ensures { result ≡ cancels kind }
{
    matches!(
        kind,
        Kind::Ilo {
            mark: Mark::Cancel,
            ..
        }
    )
}

// Which kinds meet, displayed, dark, OLO and ILO: a row for each kind of the incoming order, and in
// it an entry for each kind of the resting one. The sixteen answers are written out, as the rules give
// them, so that each can be read.
const KINDS_MEET: [[bool; 4]; 4] = [
    [true, true, false, true],
    [true, true, false, true],
    [false, false, false, true],
    [true, true, true, true],
];

// Where a kind stands in the table: a place, so a number.
fn kind_row(kind: Kind) -> usize
    ensures { result ≡ kind_row kind }
{
    match kind {
        Kind::Displayed => 0,
        Kind::Dark => 1,
        Kind::Olo => 2,
        Kind::Ilo { .. } => 3,
    }
}

pub fn kinds_meet(incoming: Kind, resting: Kind) -> bool
    ensures { result ≡ meets incoming resting }
{
    KINDS_MEET[kind_row(incoming)][kind_row(resting)]
}

// Whether a kind does not allow a ranking size at a price. An ILO needs 5,000 shares, and price
// times shares of at least $50,000.
pub fn is_too_small(kind: Kind, price: u32, size: u32) -> bool
    ensures { result ≡ too_small kind price size }
{
    match kind {
        Kind::Displayed | Kind::Dark => size < 1,
        Kind::Olo => size < 500,
        Kind::Ilo { .. } => size < 5_000 || u64::from(price) * u64::from(size) < 5_000_000,
    }
}
