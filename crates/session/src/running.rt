// Running a session: all bodies are read before the first call runs, and then each is made a call
// of a fresh book, whose answer and rows go into the listing.
ghost use Rattle.std.specs.Prelude.{◌≡◌, ℕ, ◌≤◌, length, Ok, Result};
ghost use Rattle.market.specs.declared.types.Refusal.{Refusal};
ghost use Rattle.rules.specs.Calls.{terms, rows_in};
ghost use Rattle.rules.specs.Rankings.{size_time};
ghost use Rattle.law.specs.Law.{after};
ghost use Rattle.files.specs.Lines.{line_of};
ghost use Rattle.files.specs.Calls.{call_of};
ghost use Rattle.files.specs.Files.{read_file, lines_in, counted};
ghost use Rattle.session.specs.Listing.{label_text};
ghost use Rattle.session.specs.Pages.{HasRoom, Wrote};
ghost use Rattle.session.specs.Markets.{market_of, outcome_of, played_text, text_from};
ghost use Rattle.session.specs.Sessions.{rows_count, calls, session_lines, answer_of, listing_after, quotes_after, written_over, no_quotes, printed, FairSession, Short, Ran, host_number};

use crate::listing::Page;
use board::Board;
use board::plate::Plate;
use book::book::Book;
use book::limits::{CELLS, REPORT_ROWS};
use files::types::Body;
use files::{body_at, check_file};
use market::types::{Refusal, Side};
use rules::ranking::{Ranking, SizeTime};
use rules::types::{Accepted, Call, Kind, Order, Row};

// The bytes that a listing needs to be handed in.
pub const LISTING_BYTES: usize = 65_536;

// What a cell or a row holds before anything is written there.
const NO_ORDER: Order = Order {
    arrival: 0,
    side: Side::Buy,
    price: 0,
    kind: Kind::Displayed,
    size: 0,
    open: 0,
};

const NO_ROW: Row = Row::Fill {
    incoming: 0,
    resting: 0,
    price: 0,
    shares: 0,
};

// The label of a new order; other calls have a dash.
fn label_of<'a>(body: &Body<'a>) -> &'a [u8]
    ensures { result.now ≡ label_text (line_of body.now) }
{
    match *body {
        Body::New { label, .. } => label,
        _ => b"-",
    }
}

// The rows of a report that an answer speaks of.
fn rows_of(answer: Result<Accepted, Refusal>, report: &[Row]) -> &[Row]
    requires { rows_count answer ≤ length report.now }
    ensures { result.now ≡ rows_in answer report.now }
{
    match answer {
        Ok(Accepted { rows, .. }) => &report[..rows],
        Err(_) => &[],
    }
}

// A session as it is played: a book with the cells of its sides, and the report of the last call.
// The board and the page are handed to each method: of a `&mut` that is kept in a struct beside
// another struct, a caller does not learn what was left behind it.
#[derive(Drop)]
struct Session<R> {
    book: Book<R>,
    bids: [Order; CELLS],
    offers: [Order; CELLS],
    report: [Row; REPORT_ROWS],
}

impl<R: Ranking + Copy> Session<R> {
    // Makes the call of a body and writes its line and its rows.
    fn play<B: Board>(&mut self, body: &Body, board: &mut B, page: &mut Page)
        requires { HasRoom page.old (played_text (R.ranked self.old.book.ranking) (market_of self.old (B.quotes board.old)) (line_of body.now)) }
        ensures wrote { Wrote page.old page.new (played_text (R.ranked self.old.book.ranking) (market_of self.old (B.quotes board.old)) (line_of body.now)) }
        ensures market { market_of self.new (B.quotes board.new) ≡ (outcome_of (R.ranked self.old.book.ranking) (market_of self.old (B.quotes board.old)) (line_of body.now)).market }
        ensures ranking { self.new.book.ranking ≡ self.old.book.ranking }
    {
        let answer = self.book.apply(
            Call::from(body),
            &mut self.bids,
            &mut self.offers,
            board,
            &mut self.report,
        );
        page.answer(label_of(body), answer);
        page.rows(rows_of(answer, &self.report));
    }

    // Plays the bodies of an accepted file one by one.
    fn play_all<B: Board>(&mut self, file: &[u8], count: usize, board: &mut B, page: &mut Page)
        requires read { (read_file file.now ≡ Ok (lines_in file.now)) × (count ≡ length (lines_in file.now)) }
        requires room { HasRoom page.old (text_from (R.ranked self.old.book.ranking) (market_of self.old (B.quotes board.old)) (lines_in file.now)) }
        ensures wrote { Wrote page.old page.new (text_from (R.ranked self.old.book.ranking) (market_of self.old (B.quotes board.old)) (lines_in file.now)) }
        ensures market { market_of self.new (B.quotes board.new) ≡ after (terms (R.ranked self.old.book.ranking)) (market_of self.old (B.quotes board.old)) (calls (lines_in file.now)) }
    {
        // By index, since that is how a body is asked for.
        for index in 0..count {
            let body = body_at(file, index).unwrap();
            self.play(&body, board, page);
        }
    }
}

// Plays an accepted file over a fresh book, and answers the length of the listing. Apart from `run`, so
// that no file waits for the cells of a session to be cleared before it is refused.
fn play_file<R: Ranking + Copy, B: Board>(
    ranking: R,
    board: &mut B,
    file: &[u8],
    count: usize,
    listing: &mut [u8],
) -> usize
    requires read { Ok count ≡ counted (read_file file.now) }
    requires room { 65536 ≤ length listing.old }
    ensures answer { Ok result ≡ answer_of (R.ranked ranking) (B.quotes board.old) (session_lines (length listing.old) file.now) }
    ensures listing { listing.new ≡ listing_after (R.ranked ranking) (B.quotes board.old) (session_lines (length listing.old) file.now) listing.old }
    ensures board { B.quotes board.new ≡ quotes_after (R.ranked ranking) (B.quotes board.old) (session_lines (length listing.old) file.now) }
    ensures fair { FairSession (R.ranked ranking) (B.quotes board.old) (session_lines (length listing.old) file.now) }
    ensures short { result ≤ 46000 }
    ensures ran { Ran file.now listing.old listing.new (Ok result) }
{
    let mut session = Session {
        book: Book::make(ranking, &[NO_ORDER; CELLS], &[NO_ORDER; CELLS]).unwrap(),
        bids: [NO_ORDER; CELLS],
        offers: [NO_ORDER; CELLS],
        report: [NO_ROW; REPORT_ROWS],
    };
    let mut page = Page::new(listing);
    session.play_all(file, count, board, &mut page);
    let lit = session.book.light(&session.bids, &session.offers).unwrap();
    page.light(lit);
    page.written
}

// Runs the session of a file over a fresh book and a board, and answers the length of the listing.
pub fn run<R: Ranking + Copy, B: Board>(
    ranking: R,
    board: &mut B,
    file: &[u8],
    listing: &mut [u8],
) -> Result<usize, Refusal>
    ensures answer { result ≡ answer_of (R.ranked ranking) (B.quotes board.old) (session_lines (length listing.old) file.now) }
    ensures listing { listing.new ≡ listing_after (R.ranked ranking) (B.quotes board.old) (session_lines (length listing.old) file.now) listing.old }
    ensures board { B.quotes board.new ≡ quotes_after (R.ranked ranking) (B.quotes board.old) (session_lines (length listing.old) file.now) }
    ensures fair { FairSession (R.ranked ranking) (B.quotes board.old) (session_lines (length listing.old) file.now) }
    ensures short { Short result }
    ensures ran { Ran file.now listing.old listing.new result }
{
    if listing.len() < LISTING_BYTES {
        return Err(Refusal::ShortListing);
    }
    let count = check_file(file)?;
    Ok(play_file(ranking, board, file, count, listing))
}

// The session that the rig plays: size-time, and a board without a quotation.
pub fn run_session(file: &[u8], listing: &mut [u8]) -> Result<usize, Refusal>
    ensures answer { result ≡ answer_of size_time no_quotes (session_lines (length listing.old) file.now) }
    ensures listing { listing.new ≡ listing_after size_time no_quotes (session_lines (length listing.old) file.now) listing.old }
    ensures fair { FairSession size_time no_quotes (session_lines (length listing.old) file.now) }
    ensures short { Short result }
    ensures ran { Ran file.now listing.old listing.new result }
{
    run(SizeTime, &mut Plate::new(), file, listing)
}

// What the program `rig` prints of a session file: the listing, or the line of the refusal. Answers
// its length.
pub fn print_session(file: &[u8], page: &mut [u8; LISTING_BYTES]) -> usize
    ensures answer { result ≡ length (printed (read_file file.now)) }
    ensures page { page.new ≡ written_over (printed (read_file file.now)) page.old }
    ensures short { result ≤ 46000 }
{
    match run_session(file, page) {
        Ok(length) => length,
        Err(refusal) => {
            let mut page = Page::new(page);
            page.refusal(refusal);
            page.written
        }
    }
}

// The entry of the C host, which crate session_c exports under this name: the length of the listing,
// or 100,000 plus the number of the refusal.
pub fn rig_session(file: &[u8], listing: &mut [u8]) -> u32
    ensures answer { result ≡ host_number (answer_of size_time no_quotes (session_lines (length listing.old) file.now)) }
    ensures listing { listing.new ≡ listing_after size_time no_quotes (session_lines (length listing.old) file.now) listing.old }
    ensures fair { FairSession size_time no_quotes (session_lines (length listing.old) file.now) }
    ensures short { Short (answer_of size_time no_quotes (session_lines (length listing.old) file.now)) }
    ensures ran { (r : Result ℕ Refusal) × (result ≡ host_number r) × Ran file.now listing.old listing.new r }
{
    // One number, since the host knows no `Result`.
    match run_session(file, listing) {
        Ok(length) => length as u32,
        Err(refusal) => 100_000 + refusal.number(),
    }
}
