//! Adds numbers without overflow.

ghost use Rattle.jt_layout.specs.Sums.{IsSum};

use jt_value::NoMemory;

/// Returns `count + by`.
///
/// # Errors
///
/// `NoMemory` if the sum overflows.
pub fn checked_sum(count: usize, by: usize) -> Result<usize, NoMemory>
    ensures { IsSum count by result }
{
    count.checked_add(by).ok_or(NoMemory)
}
