//! Counts the numbers of a range.
ghost use Rattle.std.specs.Prelude.{◌≡◌, ◌≢◌, pos};
ghost use Rattle.jt_value.specs.Numbers.{range_count};
ghost use Rattle.jt_value.specs.Numbers as numbers;

/// Returns how many numbers from `start` by `step` lie before `stop`.
pub(crate) fn count(start: i64, stop: i64, step: i64) -> u64
    requires { pos 0 ≢ step }
    ensures { result ≡ range_count start stop step }
{
    if step < 0 {
        distance(stop, start).div_ceil(step.unsigned_abs())
    } else {
        distance(start, stop).div_ceil(step.unsigned_abs())
    }
}

/// Returns `high - low`, or 0 if the difference is negative.
fn distance(low: i64, high: i64) -> u64
    ensures { result ≡ numbers.distance low high }
{
    if low < high { high.abs_diff(low) } else { 0 }
}
