//! Bytes that texts begin with.
ghost use Rattle.std.specs.Prelude.{◌≡◌, ◌≤◌, IsTrue, length};
ghost use Rattle.css_selector_text.specs.AttributeTests.{same_byte as is_same_byte, begins as begins_by};

/// Whether the bytes are the same, but for the case of ASCII letters if it is ignored.
#[inline(always)]
fn same_byte(ignores_case: bool, one: u8, other: u8) -> bool
    ensures { result ≡ is_same_byte ignores_case one other }
{
    if ignores_case {
        one.eq_ignore_ascii_case(&other)
    } else {
        one == other
    }
}

/// Whether the value begins with the text.
pub fn begins(ignores_case: bool, text: &[u8], value: &[u8]) -> bool
    ensures answer { result ≡ begins_by ignores_case text.now value.now }
    ensures within { IsTrue result → length text.now ≤ length value.now }
{
    let mut wanted = text;
    let mut found = value;
    'bytes: while let [byte, wanted_after @ ..] = wanted {
        match found {
            [other, found_after @ ..] if same_byte(ignores_case, *byte, *other) => {
                found = found_after;
            }
            _ => return false,
        }
        wanted = wanted_after;
    }
    true
}
