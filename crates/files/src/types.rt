use market::types::Side;
use rules::types::{Call, Kind};
use std::error::Error;
use std::fmt;

// One body of a session file. The label of a new order is handed on as that part of the file. The
// variants are those of a call, written out, since a label belongs to a new order alone.
#[derive(Clone, Copy, Debug)]
pub enum Body<'a> {
    New {
        label: &'a [u8],
        side: Side,
        price: u32,
        kind: Kind,
        shares: u32,
    },
    Cut {
        arrival: u32,
        shares: u32,
    },
    Cancel {
        arrival: u32,
    },
    Post {
        market: u32,
        side: Side,
        price: u32,
        shares: u32,
    },
}

// The call that a body makes.
impl From<&Body<'_>> for Call {
    ghost use Rattle.std.specs.Prelude.{◌≡◌};
    ghost use Rattle.files.specs.Calls.{call_of};
    ghost use Rattle.files.specs.Lines.{line_of};

    ghost from_gives = { λ body call. call ≡ call_of (line_of body.now) };

    fn from(body: &Body<'_>) -> Call {
        match *body {
            Body::New {
                side,
                price,
                kind,
                shares,
                ..
            } => Call::Enter {
                side,
                price,
                kind,
                shares,
            },
            Body::Cut { arrival, shares } => Call::Cut { arrival, shares },
            Body::Cancel { arrival } => Call::Cancel { arrival },
            Body::Post {
                market,
                side,
                price,
                shares,
            } => Call::Post {
                market,
                side,
                price,
                shares,
            },
        }
    }
}

// Why a field of a body is malformed. A refusal names the place alone, and the readers' contracts say
// which of these holds there.
#[derive(Clone, Copy, PartialEq, Eq, Debug)]
pub enum Fault {
    // The body ends where the field should begin.
    Missing,
    // A field more than the body has.
    Surplus,
    // A number of eight digits or more.
    TooLong,
    // Any other faulty number.
    NotANumber,
    // A first letter, kind, side, type or mark that is none.
    UnknownLetter,
    BadLabel,
}

// The first letter of a body: which call it makes.
#[derive(Clone, Copy, PartialEq, Eq, Debug)]
pub enum Letter {
    New,
    Cut,
    Cancel,
    Post,
}

// The letter of an order's kind. That of an ILO brings three fields more.
#[derive(Clone, Copy, PartialEq, Eq, Debug)]
pub enum KindLetter {
    Displayed,
    Dark,
    Olo,
    Ilo,
}

// What the next field of a body has to be. The last fields of a cut and of a post are those of a
// new order, so they share its words.
#[derive(Clone, Copy, PartialEq, Eq, Debug)]
pub enum Wanted {
    First,
    Label,
    Kind,
    Side,
    Price,
    Shares,
    IloSide,
    IloPrice,
    IloShares,
    Routing,
    Mtv,
    Mark,
    CutArrival,
    CancelArrival,
    Market,
    // No field more.
    End,
}

// Why lines of text are not packed into a session file.
#[derive(Clone, Copy, PartialEq, Eq, Debug)]
pub enum PackError {
    // More than 512 lines.
    TooManyLines,
    // A file of more than 65,535 bytes.
    TooLarge,
    // The output is shorter than the file.
    NoRoom,
}

impl fmt::Display for PackError {
    ghost use Rattle.std.specs.Prelude.{Some};
    ghost use Rattle.files.specs.Packing.{message};

    ghost output = { λ error. Some (message error) };

    fn fmt<W: fmt::Write>(&self, f: &mut fmt::Formatter<W>) -> fmt::Result {
        match self {
            PackError::TooManyLines => f.write_str("more than 512 lines"),
            PackError::TooLarge => {
                f.write_str("the session file would have more than 65,535 bytes")
            }
            PackError::NoRoom => f.write_str("the session file does not fit its buffer"),
        }
    }
}

impl Error for PackError {}
