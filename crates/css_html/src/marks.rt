//! What begins markup, and what ends text, comments and raw text (HTML Standard, section 13.2.5). Each
//! function takes the rest of a page and returns the rest after what it reads.
ghost use Rattle.std.specs.Prelude.{◌≡◌, ◌≤◌, ◌==◌, not, [], ◌∷◌, length, drop, option_map, MatchOption};
ghost use Rattle.std.specs.List.{prefix_len};
ghost use Rattle.css_text.specs.Reading.{before};
ghost use Rattle.css_text.specs.Bytes.{past};
ghost use Rattle.css_text.specs.Characters.{is_space as is_space_byte, is_letter as is_letter_byte};
ghost use Rattle.css_html.specs.Marks.{ends_name as ends_name_of, is_in_name as is_in_name_of};
ghost use Rattle.css_html.specs.Marks.{is_in_attribute_name as is_in_attribute_name_of};
ghost use Rattle.css_html.specs.Marks.{is_in_bare_value as is_in_bare_value_of};
ghost use Rattle.css_html.specs.Marks.{is_between as is_between_of, past_letters as past_letters_of};
ghost use Rattle.css_html.specs.Marks.{begins_named as begins_named_of};
ghost use Rattle.css_html.specs.Marks.{begins_end_named as begins_end_named_of};
ghost use Rattle.css_html.specs.Marks.{begins_markup as begins_markup_of};
ghost use Rattle.css_html.specs.Marks.{past_text as past_text_of, begins_close as begins_close_of};
ghost use Rattle.css_html.specs.Marks.{begins_bang_close as begins_bang_close_of};
ghost use Rattle.css_html.specs.Marks.{is_cut_close as is_cut_close_of, ends_comment as ends_comment_of};
ghost use Rattle.css_html.specs.Marks.{from_comment_close as from_comment_close_of};
ghost use Rattle.css_html.specs.Marks.{from_cdata_close as from_cdata_close_of};
ghost use Rattle.css_html.specs.Marks.{from_end_tag as from_end_tag_of};
ghost use Rattle.css_html.specs.Marks.{begins_comment as begins_comment_of};
ghost use Rattle.css_html.specs.Marks.{script_step as script_step_of, may_end as may_end_of};
ghost use Rattle.css_html.specs.Marks.{from_script_end as from_script_end_of};

/// Returns the first byte and the rest, if there is a byte.
pub(crate) fn split(bytes: &[u8]) -> Option<(u8, &[u8])>
    ensures { MatchOption result (bytes.now ≡ []) (λ x. bytes.now ≡ x.0 ∷ x.1.now) }
{
    match bytes {
        [] => None,
        [byte, rest @ ..] => Some((*byte, rest)),
    }
}

/// Returns the text before a rest of it.
pub fn text_between<'a>(from: &'a [u8], rest: &[u8]) -> &'a [u8]
    ensures { result.now ≡ before from.now rest.now }
{
    &from[..from.len().saturating_sub(rest.len())]
}

/// Returns the rest after these bytes, or nothing.
pub(crate) fn past_bytes(bytes: &[u8], n: usize) -> &[u8]
    ensures { result.now ≡ drop n bytes.now }
{
    &bytes[n.min(bytes.len())..]
}

/// Whether the byte is a space, a tab, a line feed, a form feed or a carriage return.
#[inline(always)]
pub(crate) fn is_space(byte: u8) -> bool
    ensures { result ≡ is_space_byte byte }
{
    matches!(byte, b' ' | b'\t' | b'\n' | b'\r' | b'\x0C')
}

/// Whether the byte is a letter.
#[inline(always)]
pub(crate) fn is_letter(byte: u8) -> bool
    ensures { result ≡ is_letter_byte byte }
{
    byte.is_ascii_alphabetic()
}

/// Whether the byte ends the name of a tag.
#[inline(always)]
fn ends_name(byte: u8) -> bool
    ensures { result ≡ ends_name_of byte }
{
    is_space(byte) || byte == b'/' || byte == b'>'
}

/// Returns the number of bytes of a tag's name at the start.
fn name_count(bytes: &[u8]) -> usize
    ensures count { result ≡ prefix_len is_in_name_of bytes.now }
    ensures within { result ≤ length bytes.now }
{
    bytes.iter().take_while(|byte| !ends_name(**byte)).count()
}

/// Returns the rest after the bytes of a tag's name.
pub(crate) fn past_name(bytes: &[u8]) -> &[u8]
    ensures { result.now ≡ past is_in_name_of bytes.now }
{
    &bytes[name_count(bytes)..]
}

/// Returns the number of bytes of an attribute's name at the start.
fn attribute_name_count(bytes: &[u8]) -> usize
    ensures count { result ≡ prefix_len is_in_attribute_name_of bytes.now }
    ensures within { result ≤ length bytes.now }
{
    bytes
        .iter()
        .take_while(|byte| !(ends_name(**byte) || **byte == b'='))
        .count()
}

/// Returns the rest after the bytes of an attribute's name, but for its first.
pub(crate) fn past_attribute_name(bytes: &[u8]) -> &[u8]
    ensures { result.now ≡ past is_in_attribute_name_of bytes.now }
{
    &bytes[attribute_name_count(bytes)..]
}

/// Returns the number of bytes of a value without quotes at the start.
fn bare_value_count(bytes: &[u8]) -> usize
    ensures count { result ≡ prefix_len is_in_bare_value_of bytes.now }
    ensures within { result ≤ length bytes.now }
{
    bytes
        .iter()
        .take_while(|byte| !(is_space(**byte) || **byte == b'>'))
        .count()
}

/// Returns the rest after the bytes of a value without quotes.
pub(crate) fn past_bare_value(bytes: &[u8]) -> &[u8]
    ensures { result.now ≡ past is_in_bare_value_of bytes.now }
{
    &bytes[bare_value_count(bytes)..]
}

/// Returns the number of space bytes at the start.
fn space_count(bytes: &[u8]) -> usize
    ensures count { result ≡ prefix_len is_space_byte bytes.now }
    ensures within { result ≤ length bytes.now }
{
    bytes.iter().take_while(|byte| is_space(**byte)).count()
}

/// Returns the rest after space bytes.
pub(crate) fn past_spaces(bytes: &[u8]) -> &[u8]
    ensures { result.now ≡ past is_space_byte bytes.now }
{
    &bytes[space_count(bytes)..]
}

/// Returns the number of space bytes and slashes at the start.
fn between_count(bytes: &[u8]) -> usize
    ensures count { result ≡ prefix_len is_between_of bytes.now }
    ensures within { result ≤ length bytes.now }
{
    bytes
        .iter()
        .take_while(|byte| is_space(**byte) || **byte == b'/')
        .count()
}

/// Returns the rest after space bytes and slashes.
pub(crate) fn past_between(bytes: &[u8]) -> &[u8]
    ensures { result.now ≡ past is_between_of bytes.now }
{
    &bytes[between_count(bytes)..]
}

/// Returns the number of other bytes before this one.
fn count_before(bytes: &[u8], end: u8) -> usize
    ensures count { result ≡ prefix_len (λ b. not (b == end)) bytes.now }
    ensures within { result ≤ length bytes.now }
{
    bytes.iter().take_while(|byte| **byte != end).count()
}

/// Returns the rest from the next such byte on, or nothing.
pub(crate) fn from_byte(bytes: &[u8], end: u8) -> &[u8]
    ensures { result.now ≡ past (λ b. not (b == end)) bytes.now }
{
    &bytes[count_before(bytes, end)..]
}

/// Returns the rest after these letters, which are in lower case, in any case.
#[tactic(auto, unfolding(crate::specs::Marks::past_letters))]
pub(crate) fn past_letters<'a>(letters: &[u8], bytes: &'a [u8]) -> Option<&'a [u8]>
    ensures { past_letters_of letters.now bytes.now ≡ option_map (λ rest. rest.now) result }
{
    let mut left = letters;
    let mut rest = bytes;
    'letters: while let [letter, others @ ..] = left {
        match rest {
            [byte, after @ ..] if byte.to_ascii_lowercase() == *letter => {
                left = others;
                rest = after;
            }
            _ => return None,
        }
    }
    Some(rest)
}

/// Whether the bytes begin with `<` and this name.
pub(crate) fn begins_named(bytes: &[u8], letters: &[u8]) -> bool
    ensures { result ≡ begins_named_of letters.now bytes.now }
{
    match bytes {
        [b'<', after @ ..] =>
            matches!(past_letters(letters, after), Some([end, ..]) if ends_name(*end)),
        _ => false,
    }
}

/// Whether the bytes begin with `</` and this name.
pub(crate) fn begins_end_named(bytes: &[u8], letters: &[u8]) -> bool
    ensures { result ≡ begins_end_named_of letters.now bytes.now }
{
    match bytes {
        [b'<', b'/', after @ ..] =>
            matches!(past_letters(letters, after), Some([end, ..]) if ends_name(*end)),
        _ => false,
    }
}

/// Whether the bytes begin with markup.
pub(crate) fn begins_markup(bytes: &[u8]) -> bool
    ensures { result ≡ begins_markup_of bytes.now }
{
    match bytes {
        [b'<', b'!' | b'?', ..] => true,
        [b'<', b'/', _, ..] => true,
        [b'<', byte, ..] => is_letter(*byte),
        _ => false,
    }
}

/// Returns the rest from the next markup on, or nothing.
#[tactic(auto, unfolding(crate::specs::Marks::past_text))]
pub(crate) fn past_text(bytes: &[u8]) -> &[u8]
    ensures { result.now ≡ past_text_of bytes.now }
{
    let mut rest = bytes;
    'text: while let [_, after @ ..] = rest {
        if begins_markup(rest) {
            return rest;
        }
        rest = after;
    }
    rest
}

/// Whether the bytes begin with `-->`.
pub(crate) fn begins_close(bytes: &[u8]) -> bool
    ensures { result ≡ begins_close_of bytes.now }
{
    matches!(bytes, [b'-', b'-', b'>', ..])
}

/// Whether the bytes begin with `--!>`.
fn begins_bang_close(bytes: &[u8]) -> bool
    ensures { result ≡ begins_bang_close_of bytes.now }
{
    matches!(bytes, [b'-', b'-', b'!', b'>', ..])
}

/// Whether the bytes are what the end of the page leaves of what closes a comment.
fn is_cut_close(bytes: &[u8]) -> bool
    ensures { result ≡ is_cut_close_of bytes.now }
{
    matches!(bytes, [b'-'] | [b'-', b'-'] | [b'-', b'-', b'!'])
}

/// Whether a comment ends before these bytes.
fn ends_comment(bytes: &[u8]) -> bool
    ensures { result ≡ ends_comment_of bytes.now }
{
    begins_close(bytes) || begins_bang_close(bytes) || is_cut_close(bytes)
}

/// Returns the rest from the first `-->` or `--!>` on, or from what the end of the page leaves of one.
#[tactic(auto, unfolding(crate::specs::Marks::from_comment_close))]
pub(crate) fn from_comment_close(bytes: &[u8]) -> &[u8]
    ensures { result.now ≡ from_comment_close_of bytes.now }
{
    let mut rest = bytes;
    'comment: while let [_, after @ ..] = rest {
        if ends_comment(rest) {
            return rest;
        }
        rest = after;
    }
    rest
}

/// Returns the rest from the first `]]>` on, or nothing.
#[tactic(auto, unfolding(crate::specs::Marks::from_cdata_close))]
pub(crate) fn from_cdata_close(bytes: &[u8]) -> &[u8]
    ensures { result.now ≡ from_cdata_close_of bytes.now }
{
    let mut rest = bytes;
    'section: while let [_, after @ ..] = rest {
        if matches!(rest, [b']', b']', b'>', ..]) {
            return rest;
        }
        rest = after;
    }
    rest
}

/// Returns the rest from the end tag of this element on, or nothing.
#[tactic(auto, unfolding(crate::specs::Marks::from_end_tag))]
pub(crate) fn from_end_tag<'a>(bytes: &'a [u8], letters: &[u8]) -> &'a [u8]
    ensures { result.now ≡ from_end_tag_of letters.now bytes.now }
{
    let mut rest = bytes;
    'raw: while let [_, after @ ..] = rest {
        if begins_end_named(rest, letters) {
            return rest;
        }
        rest = after;
    }
    rest
}

/// The state of a script's text: plain, after `<!--`, or after `<script` in that.
#[derive(Clone, Copy, Debug, PartialEq)]
enum ScriptState {
    Plain,
    Escaped,
    DoubleEscaped,
}

const SCRIPT: &[u8] = b"script";

/// Whether the bytes begin with `<!--`.
fn begins_comment(bytes: &[u8]) -> bool
    ensures { result ≡ begins_comment_of bytes.now }
{
    matches!(bytes, [b'<', b'!', b'-', b'-', ..])
}

/// Returns the state after the byte at the start.
fn script_step(state: ScriptState, bytes: &[u8]) -> ScriptState
    ensures { result ≡ script_step_of state bytes.now }
{
    match state {
        ScriptState::Plain => {
            if begins_comment(bytes) {
                ScriptState::Escaped
            } else {
                ScriptState::Plain
            }
        }
        ScriptState::Escaped => {
            if begins_close(bytes) {
                ScriptState::Plain
            } else if begins_named(bytes, SCRIPT) {
                ScriptState::DoubleEscaped
            } else {
                ScriptState::Escaped
            }
        }
        ScriptState::DoubleEscaped => {
            if begins_close(bytes) {
                ScriptState::Plain
            } else if begins_end_named(bytes, SCRIPT) {
                ScriptState::Escaped
            } else {
                ScriptState::DoubleEscaped
            }
        }
    }
}

/// Whether an end tag ends a script in this state.
fn may_end(state: ScriptState) -> bool
    ensures { result ≡ may_end_of state }
{
    match state {
        ScriptState::Plain | ScriptState::Escaped => true,
        ScriptState::DoubleEscaped => false,
    }
}

/// Returns the rest from the end tag of a script on, or nothing.
#[tactic(auto, unfolding(crate::specs::Marks::from_script_end))]
pub(crate) fn from_script_end(bytes: &[u8]) -> &[u8]
    ensures { result.now ≡ from_script_end_of ScriptState.Plain bytes.now }
{
    let mut state = ScriptState::Plain;
    let mut rest = bytes;
    'script: while let [_, after @ ..] = rest {
        if may_end(state) && begins_end_named(rest, SCRIPT) {
            return rest;
        }
        state = script_step(state, rest);
        rest = after;
    }
    rest
}
