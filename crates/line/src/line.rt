// A waiting line in places that the caller lends.
ghost use Rattle.std.specs.Prelude.{◌-◌, ◌≤◌, Some, codes, length};

use std::error::Error;
use std::fmt;

mod queries;
mod queue;

/// The refusal of a line whose every place is taken.
#[derive(Clone, Copy, Debug)]
pub struct Full;

impl fmt::Display for Full {
    ghost output = { λ _. Some (codes "the line is full") };

    fn fmt<W: fmt::Write>(&self, f: &mut fmt::Formatter<W>) -> fmt::Result {
        write!(f, "the line is full")
    }
}

impl Error for Full {}

/// A waiting line of `count` elements. The oldest stands in `places[head]`, each next one in the
/// next place, and after the last place comes the first.
#[derive(Drop)]
pub struct Line<'a, T> {
    places: &'a mut [T],
    head: usize,
    count: usize,
    // `head` is a place, or 0 where there is none
    ghost inside: { head ≤ length places.now - 1 },
    ghost held: { count ≤ length places.now },
}
