//! Checks the names of templates.

ghost use Rattle.std.specs.Prelude.{◌≡◌, ◌↔◌, ◌==◌, All, IsTrue};
ghost use Rattle.std.specs.List.{slice_split};
ghost use Rattle.jt_chains.specs.Names.{IsNameByte, IsPart, IsName};

/// The greatest length of a name, in bytes.
const MAX_NAME_LEN: usize = 255;

/// Returns whether a template may have the name.
pub(crate) fn is_name(name: &str) -> bool
    ensures { IsTrue result ↔ IsName name.now }
{
    if name.len() > MAX_NAME_LEN {
        return false;
    }
    has_name_bytes(name.as_bytes()) && has_parts(name)
}

/// Returns whether each byte may occur in a name.
fn has_name_bytes(name: &[u8]) -> bool
    ensures { IsTrue result ↔ All IsNameByte name.now }
{
    name.iter().all(|byte| *byte >= 32 && *byte != b'\\')
}

/// Returns whether each part between two `/` is valid.
fn has_parts(name: &str) -> bool
    ensures { IsTrue result ↔ All IsPart (slice_split (λ b. b == 47) name.now) }
{
    name.split('/').all(|part| is_part(part))
}

/// Returns whether a text is valid between two `/`.
fn is_part(part: &str) -> bool
    ensures { IsTrue result ↔ IsPart part.now }
{
    !matches!(part, "" | "." | "..")
}
