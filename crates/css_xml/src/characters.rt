//! Characters and names (XML 1.0, Fifth Edition, sections 2.2 and 2.3).
ghost use Rattle.std.specs.Prelude.{◌≡◌, ◌≤◌, ◌<◌};
ghost use Rattle.css_xml.specs.Characters.{is_blank as is_blank_byte, is_character as is_character_number};
ghost use Rattle.css_xml.specs.Characters.{is_name_start as is_name_start_number, is_name_char as is_name_char_number};
ghost use Rattle.css_xml.specs.Characters.{spelled_after as spelled_after_byte, is_allowed as is_allowed_at};
ghost use Rattle.css_xml.specs.Characters.{is_name as is_name_text, is_refused as is_refused_text};
ghost use Rattle.css_xml.specs.Characters.{are_characters as are_characters_of, are_blank as are_blank_of};

/// What is read of a character in UTF-8.
#[derive(Clone, Copy, Debug)]
pub struct Spelled {
    /// How many bytes it has yet.
    pub left: u32,
    /// The number that its bytes so far spell.
    pub number: u32,
}

/// Whether a byte is white space.
#[inline(always)]
pub(crate) fn is_blank(byte: u8) -> bool
    ensures { result ≡ is_blank_byte byte }
{
    matches!(byte, b' ' | b'\t' | b'\n' | b'\r')
}

/// Whether a document may have a character.
pub(crate) fn is_character(number: u32) -> bool
    ensures { result ≡ is_character_number number }
{
    matches!(number, 9 | 10 | 13 | 0x20..=0xD7FF | 0xE000..=0xFFFD | 0x1_0000..=0x10_FFFF)
}

/// Whether a character may begin a name.
fn is_name_start(number: u32) -> bool
    ensures { result ≡ is_name_start_number number }
{
    matches!(
        number,
        58 | 95
            | 97..=122
            | 65..=90
            | 0xC0..=0xD6
            | 0xD8..=0xF6
            | 0xF8..=0x2FF
            | 0x370..=0x37D
            | 0x37F..=0x1FFF
            | 0x200C..=0x200D
            | 0x2070..=0x218F
            | 0x2C00..=0x2FEF
            | 0x3001..=0xD7FF
            | 0xF900..=0xFDCF
            | 0xFDF0..=0xFFFD
            | 0x1_0000..=0xE_FFFF
    )
}

/// Whether a character may be in a name.
fn is_name_char(number: u32) -> bool
    ensures { result ≡ is_name_char_number number }
{
    is_name_start(number)
        || matches!(number, 45 | 46 | 48..=57 | 0xB7 | 0x300..=0x36F | 0x203F..=0x2040)
}

/// Returns what is read of a character after one more byte.
fn spelled_after(spelled: Spelled, byte: u8) -> Spelled
    ensures { result ≡ spelled_after_byte spelled byte }
{
    let number = u32::from(byte);
    if byte < 128 {
        Spelled { left: 0, number }
    } else if byte < 192 {
        Spelled {
            left: spelled.left.saturating_sub(1),
            number: spelled.number % 65536 * 64 + number % 64,
        }
    } else if byte < 224 {
        Spelled {
            left: 1,
            number: number - 192,
        }
    } else if byte < 240 {
        Spelled {
            left: 2,
            number: number - 224,
        }
    } else {
        Spelled {
            left: 3,
            number: number - 240,
        }
    }
}

/// Whether what is read of a character may be where it is in a name.
fn is_allowed(is_first: bool, spelled: Spelled) -> bool
    ensures { result ≡ is_allowed_at is_first spelled }
{
    if spelled.left != 0 {
        true
    } else if is_first {
        is_name_start(spelled.number)
    } else {
        is_name_char(spelled.number)
    }
}

/// Whether a text is a name.
#[tactic(auto, unfolding(crate::specs::Characters::name_from))]
pub(crate) fn is_name(bytes: &[u8]) -> bool
    ensures { result ≡ is_name_text bytes.now }
{
    let mut is_first = true;
    let mut spelled = Spelled { left: 0, number: 0 };
    let mut rest = bytes;
    'characters: while let [byte, after @ ..] = rest {
        spelled = spelled_after(spelled, *byte);
        if !is_allowed(is_first, spelled) {
            return false;
        }
        is_first = is_first && spelled.left != 0;
        rest = after;
    }
    !is_first
}

/// Whether bytes begin with what no document has.
pub(crate) fn is_refused(bytes: &[u8]) -> bool
    ensures { result ≡ is_refused_text bytes.now }
{
    match bytes {
        [0xEF, 0xBF, 0xBE | 0xBF, ..] => true,
        [byte, ..] => *byte < 32 && !is_blank(*byte),
        [] => false,
    }
}

/// Whether a document may have all characters of a text in UTF-8.
#[tactic(auto, unfolding(crate::specs::Characters::are_characters))]
pub(crate) fn are_characters(bytes: &[u8]) -> bool
    ensures { result ≡ are_characters_of bytes.now }
{
    let mut rest = bytes;
    'characters: while let [_, after @ ..] = rest {
        if is_refused(rest) {
            return false;
        }
        rest = after;
    }
    true
}

/// Whether all bytes are white space.
#[tactic(auto, unfolding(crate::specs::Characters::are_blank))]
pub(crate) fn are_blank(bytes: &[u8]) -> bool
    ensures { result ≡ are_blank_of bytes.now }
{
    let mut rest = bytes;
    'blanks: while let [byte, after @ ..] = rest {
        if !is_blank(*byte) {
            return false;
        }
        rest = after;
    }
    true
}
