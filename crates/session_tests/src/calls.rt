// The refusals that no session file can bring, the last arrival number, and the cuts at an OLO's
// least size.
use board::Board;
use board::ladder::Ladder;
use board::plate::Plate;
use book::book::Book;
use market::types::{Refusal, Side};
use rules::ranking::SizeTime;
use rules::types::{Accepted, Kind, Mark, Order, Routing, Row, Standing};
use session::running::run_session;
use std::process::Abort;
use std::test::Fail;

const EMPTY: Order = Order {
    arrival: 0,
    side: Side::Buy,
    price: 0,
    kind: Kind::Displayed,
    size: 0,
    open: 0,
};

const NO_ROW: Row = Row::Fill {
    incoming: 0,
    resting: 0,
    price: 0,
    shares: 0,
};

const NOBODY: Standing = Standing {
    arrival: 0,
    side: Side::Buy,
    price: 0,
    open: 0,
};

fn answered(arrival: u32, open: u32, cancelled: u32) -> Result<Accepted, Refusal> {
    Ok(Accepted {
        arrival,
        open,
        cancelled,
        rows: 0,
    })
}

#[test]
fn sides_of_127_cells(rt: HostRuntime) {
    let short = [EMPTY; 127];
    let side = [EMPTY; 128];
    assert!(rt; Book::make(SizeTime, &short, &side).is_err());
    assert!(rt; Book::make(SizeTime, &side, &short).is_err());
}

#[test]
fn calls_with_127_cells(rt: HostRuntime) -> Result<(), Fail> {
    let mut short = [EMPTY; 127];
    let mut bids = [EMPTY; 128];
    let mut report = [NO_ROW; 144];
    let mut board = Plate::new();
    let mut book = Book::make(SizeTime, &bids, &bids)?;
    let answer = book.enter(
        Side::Buy,
        1000,
        Kind::Olo,
        500,
        &mut bids,
        &mut short,
        &mut board,
        &mut report,
    );
    assert_eq!(rt; answer, Err(Refusal::SideCells));
    assert_eq!(rt;
        book.cut(1, 1, &mut short, &mut bids),
        Err(Refusal::SideCells)
    );
    assert_eq!(rt;
        book.cancel(1, &mut bids, &mut short),
        Err(Refusal::SideCells)
    );
    assert_eq!(rt; book.open(1, &bids, &short), Err(Refusal::SideCells));
    assert_eq!(rt; book.light(&short, &bids), Err(Refusal::SideCells));
    Ok(())
}

#[test]
fn short_reports_and_lists(rt: HostRuntime) -> Result<(), Fail> {
    let mut bids = [EMPTY; 128];
    let mut offers = [EMPTY; 128];
    let mut report = [NO_ROW; 143];
    let mut board = Plate::new();
    let mut book = Book::make(SizeTime, &bids, &offers)?;
    let answer = book.enter(
        Side::Buy,
        0,
        Kind::Olo,
        500,
        &mut bids,
        &mut offers,
        &mut board,
        &mut report,
    );
    assert_eq!(rt; answer, Err(Refusal::ShortReport), "before the price");
    assert_eq!(rt;
        book.list(&bids, &offers, &mut [NOBODY; 255]),
        Err(Refusal::ShortReport)
    );
    assert_eq!(rt; book.list(&bids, &offers, &mut [NOBODY; 256]), Ok(0));
    Ok(())
}

#[test]
fn short_listings(rt: HostRuntime) {
    let mut listing = [7u8; 65_535];
    assert_eq!(rt;
        run_session(b"\x00\x00", &mut listing),
        Err(Refusal::ShortListing)
    );
    assert_eq!(rt;
        run_session(b"", &mut listing),
        Err(Refusal::ShortListing),
        "before the file"
    );
    assert!(rt; listing[0] == 7 && listing[65_534] == 7);
}

fn takes<B: Board>(rt: &impl Abort, board: &mut B) {
    assert_eq!(rt;
        board.take(3, Side::Sell, 1),
        Err(Refusal::Take),
        "of nothing"
    );
    assert_eq!(rt; board.post(3, Side::Sell, 1000, 100), Ok(()));
    assert_eq!(rt;
        board.take(3, Side::Sell, 200),
        Err(Refusal::Take),
        "of too many"
    );
    assert_eq!(rt; board.take(3, Side::Sell, 0), Err(Refusal::Take));
    assert_eq!(rt; board.take(17, Side::Sell, 1), Err(Refusal::MarketNumber));
    assert_eq!(rt; board.take(3, Side::Sell, 100), Ok(()));
    assert!(rt; board.look(3, Side::Sell).is_none());
}

#[test]
fn takes_of_both_boards(rt: HostRuntime) {
    takes(&rt, &mut Plate::new());
    takes(&rt, &mut Ladder::new());
}

// Enters the same sale so many times, and answers what the last one answered.
fn sell(
    book: &mut Book<SizeTime>,
    kind: Kind,
    shares: u32,
    times: u32,
    bids: &mut [Order],
    offers: &mut [Order],
) -> Result<Accepted, Refusal> {
    let mut report = [NO_ROW; 144];
    let mut board = Plate::new();
    let mut last = answered(0, 0, 0);
    for _ in 0..times {
        last = book.enter(
            Side::Sell,
            1000,
            kind,
            shares,
            bids,
            offers,
            &mut board,
            &mut report,
        );
    }
    last
}

#[test]
fn cuts_at_the_least_size(rt: HostRuntime) -> Result<(), Fail> {
    let mut bids = [EMPTY; 128];
    let mut offers = [EMPTY; 128];
    let mut book = Book::make(SizeTime, &bids, &offers)?;
    let answer = sell(&mut book, Kind::Olo, 700, 2, &mut bids, &mut offers);
    assert_eq!(rt; answer, answered(2, 700, 0));
    assert_eq!(rt;
        book.cut(1, 200, &mut bids, &mut offers),
        answered(1, 500, 200)
    );
    assert_eq!(rt;
        book.cut(2, 201, &mut bids, &mut offers),
        answered(2, 0, 700)
    );
    assert_eq!(rt; book.open(1, &bids, &offers), Ok(500));
    assert_eq!(rt; book.open(2, &bids, &offers), Ok(0));
    Ok(())
}

#[test]
fn arrivals_are_spent(rt: HostRuntime) -> Result<(), Fail> {
    let mut bids = [EMPTY; 128];
    let mut offers = [EMPTY; 128];
    let kind = Kind::Ilo {
        routing: Routing::Type1,
        mtv: 0,
        mark: Mark::Cancel,
    };
    let mut book = Book::make(SizeTime, &bids, &offers)?;
    let answer = sell(&mut book, kind, 5000, 1_000_000, &mut bids, &mut offers);
    assert_eq!(rt; answer, answered(1_000_000, 0, 5000));
    let answer = sell(&mut book, kind, 5000, 1, &mut bids, &mut offers);
    assert_eq!(rt; answer, Err(Refusal::ArrivalsSpent));
    Ok(())
}
