// One shelf for every kind of thing that stands in an order: lent cells, of which the first few are in
// use. What stands there is `standing`, first to last; the cells behind hold nothing. Readers are
// handed the standing part of the slice, and only the methods here touch the cells.
#![tactic(auto)]

ghost use Rattle.std.specs.Prelude.{◌≡◌, ℕ, ◌+◌, ◌<◌, ◌≤◌, Bool, ◌⊎◌, min, length, take, drop, Ok, Err, OnOk, OnErr, nat_eq, slice_set};
ghost use Rattle.std.specs.List.{insert, remove};
ghost use Rattle.shelf.specs.Order.{Total};
ghost use Rattle.shelf.specs.Standing.{first, first_at, put_in, nth};

pub mod laws;
pub mod types;

use types::{Absent, Full, Placed};

// A thing that can stand on a shelf names its own key, which decides where it stands, and its
// own tag, by which it is found.
pub trait Shelved: Copy {
    type Key: Drop;

    ghost keyed: { Self → Self.Key };

    ghost tagged: { Self → ℕ };

    fn key(&self) -> Self::Key
        ensures { result ≡ keyed self.now };

    fn tag(&self) -> u32
        ensures { result ≡ tagged self.now };
}

// Who stands ahead of whom: a value, since a book is told its ranking when it is made.
pub trait Precedence<K> {
    ghost label: { K → ℕ };

    ghost ahead: { Self → K → K → Bool };

    fn precedes(&self, a: &K, b: &K) -> bool
        ensures { result ≡ ahead self.now a.now b.now };

    ghost total: { (s : Self) → Total label (ahead s) };
}

// Cells that are lent, and how many of them are in use. A lender gets them back when the shelf is let
// go, and keeps the count himself until he lends them again.
#[derive(Drop)]
pub struct Shelf<'a, T> {
    cells: &'a mut [T],
    count: usize,
    ghost within: { count ≤ length cells.now },
}

// How many things stand on a shelf that was never used, whatever its cells hold.
pub fn empty<T>(_cells: &[T]) -> usize
    ensures { result ≡ 0 }
{
    0
}

// How many things stand in cells of which so many are said to be in use.
pub fn count<T>(cells: &[T], used: usize) -> usize
    ensures { result ≡ length (take used cells.now) }
{
    used.min(cells.len())
}

impl<'a, T> Shelf<'a, T> {
    // The shelf of cells of which so many are in use, or all where there are no more.
    pub fn over(cells: &'a mut [T], used: usize) -> Shelf<'a, T>
        ensures same { result.cells.ghost_name ≡ cells.entry.ghost_name }
        ensures cells { result.cells.now ≡ cells.old }
        ensures count { result.count ≡ min used (length cells.old) }
    {
        let count = count(cells, used);
        Shelf { cells, count }
    }

    pub fn count(&self) -> usize
        ensures { result ≡ self.now.count }
    {
        self.standing().len()
    }

    // What stands, first to last.
    pub fn standing(&self) -> &[T]
        ensures { result.now ≡ take self.now.count self.now.cells.now }
    {
        &self.cells[..self.count]
    }
}

impl<'a, T: Copy> Shelf<'a, T> {
    // Makes room at a place and puts a thing there: the things from there on move back by one.
    fn insert_at(&mut self, at: usize, thing: T)
        requires { (at ≤ self.old.count) × (self.old.count < length self.old.cells.now) }
        ensures same { self.new.cells.ghost_name ≡ self.old.cells.ghost_name }
        ensures size { length self.new.cells.now ≡ length self.old.cells.now }
        ensures count { self.new.count ≡ self.old.count + 1 }
        ensures stands { take self.new.count self.new.cells.now ≡ insert (take self.old.count self.old.cells.now) at thing }
        ensures behind { drop self.new.count self.new.cells.now ≡ drop self.new.count self.old.cells.now }
    {
        self.cells.copy_within(at..self.count, at + 1);
        self.cells[at] = thing;
        self.count += 1;
    }

    // Takes out what stands at a place: the things behind it move up by one.
    pub fn take_out(&mut self, at: usize) -> Result<(), Absent>
        ensures same { self.new.cells.ghost_name ≡ self.old.cells.ghost_name }
        ensures size { length self.new.cells.now ≡ length self.old.cells.now }
        ensures ok { OnOk result ((at < self.old.count) × (self.new.count + 1 ≡ self.old.count) × (take self.new.count self.new.cells.now ≡ remove (take self.old.count self.old.cells.now) at) × (drop self.new.count self.new.cells.now ≡ drop self.new.count self.old.cells.now)) }
        ensures err { OnErr result ((self.old.count ≤ at) × (self.new.count ≡ self.old.count) × (self.new.cells.now ≡ self.old.cells.now)) }
    {
        if at >= self.count {
            return Err(Absent);
        }
        self.cells.copy_within(at + 1..self.count, at);
        self.count -= 1;
        Ok(())
    }

    // Puts `x` in the place of what stands there. A sorted shelf stays sorted where both have one key.
    pub fn replace(&mut self, at: usize, x: T) -> Result<(), Absent>
        ensures same { self.new.cells.ghost_name ≡ self.old.cells.ghost_name }
        ensures size { length self.new.cells.now ≡ length self.old.cells.now }
        ensures count { self.new.count ≡ self.old.count }
        ensures ok { OnOk result ((at < self.old.count) × (take self.new.count self.new.cells.now ≡ slice_set (take self.old.count self.old.cells.now) at x) × (drop self.new.count self.new.cells.now ≡ drop self.new.count self.old.cells.now)) }
        ensures err { OnErr result ((self.old.count ≤ at) × (self.new.cells.now ≡ self.old.cells.now)) }
    {
        if at >= self.count {
            return Err(Absent);
        }
        self.cells[at] = x;
        Ok(())
    }
}

impl<'a, T: Shelved> Shelf<'a, T> {
    // Puts `x` before the first thing that it is ahead of.
    pub fn put<P: Precedence<T::Key>>(&mut self, order: &P, x: T) -> Result<(), Full>
        ensures same { self.new.cells.ghost_name ≡ self.old.cells.ghost_name }
        ensures size { length self.new.cells.now ≡ length self.old.cells.now }
        ensures ok { OnOk result ((self.new.count ≡ self.old.count + 1) × (take self.new.count self.new.cells.now ≡ put_in (λ a b. P.ahead order.now (T.keyed a) (T.keyed b)) x (take self.old.count self.old.cells.now)) × (drop self.new.count self.new.cells.now ≡ drop self.new.count self.old.cells.now)) }
        ensures err { OnErr result ((self.old.count ≡ length self.old.cells.now) × (self.new.count ≡ self.old.count) × (self.new.cells.now ≡ self.old.cells.now)) }
    {
        if self.count >= self.cells.len() {
            return Err(Full);
        }
        let at = place_for(order, self.standing(), &x);
        self.insert_at(at, x);
        Ok(())
    }
}

// Sends back a count above the number of cells.
fn check_count<T>(cells: &[T], used: usize) -> Result<(), Absent>
    ensures ok { OnOk result (used ≤ length cells.now) }
    ensures err { OnErr result (length cells.now < used) }
{
    if used > cells.len() {
        return Err(Absent);
    }
    Ok(())
}

// The same three writes for a lender who makes one at a time and keeps the count beside his cells: `put`
// and `take_out` answer the new count. Where one is refused, the cells stay as they were.
pub fn put<T: Shelved, P: Precedence<T::Key>>(
    order: &P,
    cells: &mut [T],
    used: usize,
    x: T,
) -> Result<usize, Full>
    ensures { elim result [ Ok n ↦ (n ≡ used + 1) × (n ≤ length cells.old) × (take n cells.new ≡ put_in (λ a b. P.ahead order.now (T.keyed a) (T.keyed b)) x (take used cells.old)) × (drop n cells.new ≡ drop n cells.old) | Err e ↦ (cells.new ≡ cells.old) × (length cells.old ≤ used) ] }
{
    let mut shelf = Shelf::over(cells, used);
    shelf.put(order, x)?;
    Ok(shelf.count())
}

pub fn take_out<T: Copy>(cells: &mut [T], used: usize, at: usize) -> Result<usize, Absent>
    ensures { elim result [ Ok n ↦ (n + 1 ≡ used) × (at < used) × (used ≤ length cells.old) × (take n cells.new ≡ remove (take used cells.old) at) × (drop n cells.new ≡ drop n cells.old) | Err e ↦ (cells.new ≡ cells.old) × ((used ≤ at) ⊎ (length cells.old < used)) ] }
{
    check_count(cells, used)?;
    let mut shelf = Shelf::over(cells, used);
    shelf.take_out(at)?;
    Ok(shelf.count())
}

pub fn replace<T: Copy>(cells: &mut [T], used: usize, at: usize, x: T) -> Result<(), Absent>
    ensures { elim result [ Ok _ ↦ (at < used) × (used ≤ length cells.old) × (take used cells.new ≡ slice_set (take used cells.old) at x) × (drop used cells.new ≡ drop used cells.old) | Err e ↦ (cells.new ≡ cells.old) × ((used ≤ at) ⊎ (length cells.old < used)) ] }
{
    check_count(cells, used)?;
    Shelf::over(cells, used).replace(at, x)
}

// The place of the first thing that `x` is ahead of, or the end. Not by halving, since this holds of
// cells in any order.
fn place_for<T: Shelved, P: Precedence<T::Key>>(order: &P, standing: &[T], x: &T) -> usize
    ensures { result ≡ first_at (λ y. P.ahead order.now (T.keyed x.now) (T.keyed y)) standing.now }
{
    let key = x.key();
    standing
        .iter()
        .position(|y| order.precedes(&key, &y.key()))
        .unwrap_or(standing.len())
}

// What stands at a place.
pub fn read<T: Copy>(standing: &[T], at: usize) -> Option<T>
    ensures { result ≡ nth at standing.now }
{
    standing.get(at).copied()
}

// The first thing of a tag, with its place.
pub fn find<T: Shelved>(standing: &[T], tag: u32) -> Option<Placed<T>>
    ensures { result ≡ first (λ y. nat_eq (T.tagged y) tag) standing.now 0 }
{
    let place = standing.iter().position(|y| y.tag() == tag)?;
    Some(Placed {
        place,
        item: standing[place],
    })
}
