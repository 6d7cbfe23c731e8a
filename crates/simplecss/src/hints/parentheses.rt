//! Values that leave a parenthesis open.
ghost use Rattle.std.specs.Prelude.{◌≡◌, ◌+◌, ◌<◌, ◌^◌};
ghost use Rattle.simplecss.specs.OpenParentheses.{next_within, next_before, open_after, leaves_open};

/// What a byte of a value is part of.
#[derive(Clone, Copy, Debug, PartialEq)]
enum Within {
    /// Of no string and no comment.
    Value,
    /// Of a string with this quote.
    String(u8),
    /// Of a comment.
    Comment,
}

/// Returns what the byte after this one is part of. A string or comment that is left open closes none
/// (CSS 2.1 sections 4.1.9 and 4.3.7).
fn next_within(within: Within, before: u8, byte: u8) -> Within
    ensures { result ≡ next_within within before byte }
{
    match within {
        Within::Value => {
            if byte == b'"' || byte == b'\'' {
                Within::String(byte)
            } else if byte == b'*' && before == b'/' {
                Within::Comment
            } else {
                Within::Value
            }
        }
        Within::String(quote) => {
            if byte == quote && before != b'\\' {
                Within::Value
            } else {
                Within::String(quote)
            }
        }
        Within::Comment => {
            if byte == b'/' && before == b'*' {
                Within::Value
            } else {
                Within::Comment
            }
        }
    }
}

/// Returns the byte as what the next one has before it: a space where it ends a mark of a comment or
/// is escaped.
fn next_before(within: Within, before: u8, byte: u8) -> u8
    ensures { result ≡ next_before within before byte }
{
    let is_spent = match within {
        Within::Value => byte == b'*' && before == b'/',
        Within::String(_) => before == b'\\',
        Within::Comment => byte == b'/' && before == b'*',
    };
    if is_spent { b' ' } else { byte }
}

/// Returns how many parentheses are open after a byte.
fn open_after(within: Within, count: usize, byte: u8) -> usize
    requires { count + 1 < 2 ^ 64 }
    ensures { result ≡ open_after within count byte }
{
    match within {
        Within::Value => {
            if byte == b'(' {
                count + 1
            } else if byte == b')' {
                count.saturating_sub(1)
            } else {
                count
            }
        }
        _ => count,
    }
}

/// Whether a value leaves a parenthesis open. Those in strings and comments do not count.
pub(crate) fn is_left_open(value: &str) -> bool
    ensures { result ≡ leaves_open value.now }
{
    let mut count = 0_usize;
    let mut within = Within::Value;
    let mut before = b' ';
    for byte in value.as_bytes() {
        count = open_after(within, count, *byte);
        let next = next_within(within, before, *byte);
        before = next_before(within, before, *byte);
        within = next;
    }
    count > 0
}
