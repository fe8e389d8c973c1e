// A book: its ranking, how many orders rest on each side, and how many entries were accepted. It
// keeps no memory of its own: the cells of each side are lent with each call, as a slice of their
// own, so bids, offers, board and report are parameters of each call that uses them.
ghost use Rattle.std.specs.Prelude.{◌≤◌};

#[derive(Drop)]
pub struct Book<R> {
    pub(crate) ranking: R,
    pub(crate) bids: usize,
    pub(crate) offers: usize,
    pub(crate) arrivals: u32,
    ghost within: { (bids ≤ 128) × (offers ≤ 128) × (arrivals ≤ 1000000) },
}
