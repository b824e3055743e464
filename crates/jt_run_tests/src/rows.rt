//! Runs rows, which are the lines of one text. The prover reads one text, and a row costs it
//! nothing.

use std::alloc::Global;
use std::test::Fail;

/// Checks rows `asked => wanted`, one per line, against the results of `answer`. Fails with the
/// first row that has another result, and with that result.
pub(crate) fn rows_hold<F: Fn(Global, &str) -> Result<String, Fail>>(
    rt: &impl AllocGlobal,
    answer: F,
    rows: &str,
) -> Result<(), Fail>
    requires { F.IsAlwaysCallable answer }
{
    for row in rows.lines() {
        let (asked, wanted) = row.trim().split_once(" => ").ok_or("a row has no =>")?;
        let found = answer(rt.alloc(), asked)?;
        if found.as_str() != wanted {
            return Err(Fail::from(format!(in rt.alloc(); "{row}, and not {found}")?));
        }
    }
    Ok(())
}

/// Returns the numbers of a row, with blanks between.
pub(crate) fn numbers<const N: usize>(asked: &str) -> Result<[u32; N], Fail> {
    let mut found = [0; N];
    let mut words = asked.split(' ');
    for place in found.iter_mut() {
        let word = words.next().ok_or("a row has too few numbers")?;
        *place = word.parse::<u32>()?;
    }
    if words.next().is_some() {
        return Err(Fail::from("a row has too many numbers"));
    }
    Ok(found)
}
