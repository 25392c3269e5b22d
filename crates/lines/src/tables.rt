//! Tables that a line gives in part.
ghost use Rattle.std.specs.Prelude.{◌≤◌};

/// A table, and how many of its places the line gave.
#[derive(Clone, Copy)]
pub struct Given<T> {
    pub table: T,
    pub given: usize,
}

/// The places that are used, or those that were given where they are more, and no more than there are.
pub fn places_shown(used: usize, given: usize, most: usize) -> usize
    ensures { result ≤ most }
{
    used.max(given).min(most)
}
