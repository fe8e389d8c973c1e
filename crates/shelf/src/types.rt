// A full shelf takes nothing more.
#[derive(Clone, Copy, PartialEq, Eq, Debug)]
pub struct Full;

// Nothing stands at the place that was named.
#[derive(Clone, Copy, PartialEq, Eq, Debug)]
pub struct Absent;

// A thing on a shelf, with its place: 0 is the first.
#[derive(Clone, Copy)]
pub struct Placed<T> {
    pub place: usize,
    pub item: T,
}
