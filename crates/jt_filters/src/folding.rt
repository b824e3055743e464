//! Compares texts by fold, which is their ASCII lower case.
ghost use Rattle.std.specs.Prelude.{◌≡◌};
ghost use Rattle.jt_filter_semantics.specs.Ordering as ordering;

/// Returns whether a text precedes another one by fold.
pub(crate) fn text_precedes(left: &str, right: &str) -> bool
    ensures { result ≡ ordering.text_precedes left.now right.now }
{
    let others = right.as_bytes();
    let mut index = 0;
    for byte in left.as_bytes() {
        if index >= others.len() {
            return false;
        }
        let x = byte.to_ascii_lowercase();
        let y = others[index].to_ascii_lowercase();
        if x != y {
            return x < y;
        }
        index += 1;
    }
    left.len() < right.len()
}
