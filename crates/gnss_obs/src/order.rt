//! The order of numbers that rise.
ghost use Rattle.std.specs.Prelude.{◌<◌, ◌++◌, ◌∷◌, [], List, ℕ};
ghost use Rattle.gnss_obs.specs.Order.{IsLeastNext, unsorted};

/// Kept in place of the least next number if the numbers so far don't rise.
pub(crate) const UNSORTED: usize = 2_048;

/// Returns, after one more number, the least number that may follow in rising order: the last one
/// plus 1. It is 0 without a number, and `UNSORTED` if a number isn't greater than the one
/// before it.
#[inline(always)]
pub(crate) fn least_next_after(least: usize, number: usize) -> usize
    requires { number < unsorted }
    ensures { (ns : List ℕ) → IsLeastNext least ns → IsLeastNext result (ns ++ number ∷ []) }
{
    if number < least { UNSORTED } else { number + 1 }
}
