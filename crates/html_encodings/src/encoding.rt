//! The names and the labels of encodings (Encoding Standard, section 4.2).
ghost use Rattle.std.specs.Prelude.{◌≡◌, true, map};
ghost use Rattle.html_encodings.specs.Labels.{name_of, labels};
ghost use Rattle.html_encodings.specs.Finding.{first_word as first_word_of, is_listed_from};
ghost use Rattle.html_encodings.specs.Finding.{encoding_in as encoding_in_rows};
ghost use Rattle.html_encodings.specs.Finding.{encoding_of_label as encoding_of_label_of};
ghost use Rattle.html_encodings.specs.Views.{row_of};

use crate::bytes::{count_before, is_spaced_word};
use css_html::marks::text_between;

/// An encoding that browsers know.
#[derive(Clone, Copy)]
pub enum Encoding {
    /// UTF-8.
    Utf8,
    /// IBM866.
    Ibm866,
    /// ISO-8859-2.
    Iso8859_2,
    /// ISO-8859-3.
    Iso8859_3,
    /// ISO-8859-4.
    Iso8859_4,
    /// ISO-8859-5.
    Iso8859_5,
    /// ISO-8859-6.
    Iso8859_6,
    /// ISO-8859-7.
    Iso8859_7,
    /// ISO-8859-8.
    Iso8859_8,
    /// ISO-8859-8-I.
    Iso8859_8I,
    /// ISO-8859-10.
    Iso8859_10,
    /// ISO-8859-13.
    Iso8859_13,
    /// ISO-8859-14.
    Iso8859_14,
    /// ISO-8859-15.
    Iso8859_15,
    /// ISO-8859-16.
    Iso8859_16,
    /// KOI8-R.
    Koi8R,
    /// KOI8-U.
    Koi8U,
    /// macintosh.
    Macintosh,
    /// windows-874.
    Windows874,
    /// windows-1250.
    Windows1250,
    /// windows-1251.
    Windows1251,
    /// windows-1252.
    Windows1252,
    /// windows-1253.
    Windows1253,
    /// windows-1254.
    Windows1254,
    /// windows-1255.
    Windows1255,
    /// windows-1256.
    Windows1256,
    /// windows-1257.
    Windows1257,
    /// windows-1258.
    Windows1258,
    /// x-mac-cyrillic.
    MacCyrillic,
    /// GBK.
    Gbk,
    /// gb18030.
    Gb18030,
    /// Big5.
    Big5,
    /// EUC-JP.
    EucJp,
    /// ISO-2022-JP.
    Iso2022Jp,
    /// Shift_JIS.
    ShiftJis,
    /// EUC-KR.
    EucKr,
    /// replacement.
    Replacement,
    /// UTF-16BE.
    Utf16Be,
    /// UTF-16LE.
    Utf16Le,
    /// x-user-defined.
    UserDefined,
}

impl Encoding {
    /// Returns the encoding's name.
    pub fn name(self) -> &'static str
        ensures { result.now ≡ name_of self }
    {
        match self {
            Encoding::Utf8 => "UTF-8",
            Encoding::Ibm866 => "IBM866",
            Encoding::Iso8859_2 => "ISO-8859-2",
            Encoding::Iso8859_3 => "ISO-8859-3",
            Encoding::Iso8859_4 => "ISO-8859-4",
            Encoding::Iso8859_5 => "ISO-8859-5",
            Encoding::Iso8859_6 => "ISO-8859-6",
            Encoding::Iso8859_7 => "ISO-8859-7",
            Encoding::Iso8859_8 => "ISO-8859-8",
            Encoding::Iso8859_8I => "ISO-8859-8-I",
            Encoding::Iso8859_10 => "ISO-8859-10",
            Encoding::Iso8859_13 => "ISO-8859-13",
            Encoding::Iso8859_14 => "ISO-8859-14",
            Encoding::Iso8859_15 => "ISO-8859-15",
            Encoding::Iso8859_16 => "ISO-8859-16",
            Encoding::Koi8R => "KOI8-R",
            Encoding::Koi8U => "KOI8-U",
            Encoding::Macintosh => "macintosh",
            Encoding::Windows874 => "windows-874",
            Encoding::Windows1250 => "windows-1250",
            Encoding::Windows1251 => "windows-1251",
            Encoding::Windows1252 => "windows-1252",
            Encoding::Windows1253 => "windows-1253",
            Encoding::Windows1254 => "windows-1254",
            Encoding::Windows1255 => "windows-1255",
            Encoding::Windows1256 => "windows-1256",
            Encoding::Windows1257 => "windows-1257",
            Encoding::Windows1258 => "windows-1258",
            Encoding::MacCyrillic => "x-mac-cyrillic",
            Encoding::Gbk => "GBK",
            Encoding::Gb18030 => "gb18030",
            Encoding::Big5 => "Big5",
            Encoding::EucJp => "EUC-JP",
            Encoding::Iso2022Jp => "ISO-2022-JP",
            Encoding::ShiftJis => "Shift_JIS",
            Encoding::EucKr => "EUC-KR",
            Encoding::Replacement => "replacement",
            Encoding::Utf16Be => "UTF-16BE",
            Encoding::Utf16Le => "UTF-16LE",
            Encoding::UserDefined => "x-user-defined",
        }
    }
}

/// The encodings, each after its labels, which are in lower case, each before a space.
const LABELS: [(&[u8], Encoding); 40] = [
    (
        b"unicode-1-1-utf-8 unicode11utf8 unicode20utf8 utf-8 utf8 x-unicode20utf8 ",
        Encoding::Utf8,
    ),
    (b"866 cp866 csibm866 ibm866 ", Encoding::Ibm866),
    (
        b"csisolatin2 iso-8859-2 iso-ir-101 iso8859-2 iso88592 iso_8859-2 iso_8859-2:1987 \
            l2 latin2 ",
        Encoding::Iso8859_2,
    ),
    (
        b"csisolatin3 iso-8859-3 iso-ir-109 iso8859-3 iso88593 iso_8859-3 iso_8859-3:1988 \
            l3 latin3 ",
        Encoding::Iso8859_3,
    ),
    (
        b"csisolatin4 iso-8859-4 iso-ir-110 iso8859-4 iso88594 iso_8859-4 iso_8859-4:1988 \
            l4 latin4 ",
        Encoding::Iso8859_4,
    ),
    (
        b"csisolatincyrillic cyrillic iso-8859-5 iso-ir-144 iso8859-5 iso88595 iso_8859-5 \
            iso_8859-5:1988 ",
        Encoding::Iso8859_5,
    ),
    (
        b"arabic asmo-708 csiso88596e csiso88596i csisolatinarabic ecma-114 iso-8859-6 \
            iso-8859-6-e iso-8859-6-i iso-ir-127 iso8859-6 iso88596 iso_8859-6 \
            iso_8859-6:1987 ",
        Encoding::Iso8859_6,
    ),
    (
        b"csisolatingreek ecma-118 elot_928 greek greek8 iso-8859-7 iso-ir-126 iso8859-7 \
            iso88597 iso_8859-7 iso_8859-7:1987 sun_eu_greek ",
        Encoding::Iso8859_7,
    ),
    (
        b"csiso88598e csisolatinhebrew hebrew iso-8859-8 iso-8859-8-e iso-ir-138 \
            iso8859-8 iso88598 iso_8859-8 iso_8859-8:1988 visual ",
        Encoding::Iso8859_8,
    ),
    (b"csiso88598i iso-8859-8-i logical ", Encoding::Iso8859_8I),
    (
        b"csisolatin6 iso-8859-10 iso-ir-157 iso8859-10 iso885910 l6 latin6 ",
        Encoding::Iso8859_10,
    ),
    (b"iso-8859-13 iso8859-13 iso885913 ", Encoding::Iso8859_13),
    (b"iso-8859-14 iso8859-14 iso885914 ", Encoding::Iso8859_14),
    (
        b"csisolatin9 iso-8859-15 iso8859-15 iso885915 iso_8859-15 l9 ",
        Encoding::Iso8859_15,
    ),
    (b"iso-8859-16 ", Encoding::Iso8859_16),
    (b"cskoi8r koi koi8 koi8-r koi8_r ", Encoding::Koi8R),
    (b"koi8-ru koi8-u ", Encoding::Koi8U),
    (
        b"csmacintosh mac macintosh x-mac-roman ",
        Encoding::Macintosh,
    ),
    (
        b"dos-874 iso-8859-11 iso8859-11 iso885911 tis-620 windows-874 ",
        Encoding::Windows874,
    ),
    (b"cp1250 windows-1250 x-cp1250 ", Encoding::Windows1250),
    (b"cp1251 windows-1251 x-cp1251 ", Encoding::Windows1251),
    (
        b"ansi_x3.4-1968 ascii cp1252 cp819 csisolatin1 ibm819 iso-8859-1 iso-ir-100 \
            iso8859-1 iso88591 iso_8859-1 iso_8859-1:1987 l1 latin1 us-ascii windows-1252 \
            x-cp1252 ",
        Encoding::Windows1252,
    ),
    (b"cp1253 windows-1253 x-cp1253 ", Encoding::Windows1253),
    (
        b"cp1254 csisolatin5 iso-8859-9 iso-ir-148 iso8859-9 iso88599 iso_8859-9 \
            iso_8859-9:1989 l5 latin5 windows-1254 x-cp1254 ",
        Encoding::Windows1254,
    ),
    (b"cp1255 windows-1255 x-cp1255 ", Encoding::Windows1255),
    (b"cp1256 windows-1256 x-cp1256 ", Encoding::Windows1256),
    (b"cp1257 windows-1257 x-cp1257 ", Encoding::Windows1257),
    (b"cp1258 windows-1258 x-cp1258 ", Encoding::Windows1258),
    (b"x-mac-cyrillic x-mac-ukrainian ", Encoding::MacCyrillic),
    (
        b"chinese csgb2312 csiso58gb231280 gb2312 gb_2312 gb_2312-80 gbk iso-ir-58 x-gbk ",
        Encoding::Gbk,
    ),
    (b"gb18030 ", Encoding::Gb18030),
    (b"big5 big5-hkscs cn-big5 csbig5 x-x-big5 ", Encoding::Big5),
    (b"cseucpkdfmtjapanese euc-jp x-euc-jp ", Encoding::EucJp),
    (b"csiso2022jp iso-2022-jp ", Encoding::Iso2022Jp),
    (
        b"csshiftjis ms932 ms_kanji shift-jis shift_jis sjis windows-31j x-sjis ",
        Encoding::ShiftJis,
    ),
    (
        b"cseuckr csksc56011987 euc-kr iso-ir-149 korean ks_c_5601-1987 ks_c_5601-1989 \
            ksc5601 ksc_5601 windows-949 ",
        Encoding::EucKr,
    ),
    (
        b"csiso2022kr hz-gb-2312 iso-2022-cn iso-2022-cn-ext iso-2022-kr replacement ",
        Encoding::Replacement,
    ),
    (b"unicodefffe utf-16be ", Encoding::Utf16Be),
    (
        b"csunicode iso-10646-ucs-2 ucs-2 unicode unicodefeff utf-16 utf-16le ",
        Encoding::Utf16Le,
    ),
    (b"x-user-defined ", Encoding::UserDefined),
];

/// Returns the first word of several.
fn first_word(words: &[u8]) -> &[u8]
    ensures { result.now ≡ first_word_of words.now }
{
    text_between(words, &words[count_before(words, b' ')..])
}

/// Whether a label, in any case and with any space bytes at its ends, is one of these words.
#[tactic(auto, unfolding(crate::specs::Finding::is_listed_from))]
fn is_listed(words: &[u8], label: &[u8]) -> bool
    ensures { result ≡ is_listed_from true words.now label.now }
{
    let mut begins = true;
    let mut rest = words;
    'words: while let [byte, after @ ..] = rest {
        if begins && is_spaced_word(first_word(rest), label) {
            return true;
        }
        begins = *byte == b' ';
        rest = after;
    }
    false
}

/// Returns the encoding of the first row that has a label, in any case and with any space bytes at its ends.
fn encoding_in(table: &[(&'static [u8], Encoding)], label: &[u8]) -> Option<Encoding>
    ensures { result ≡ encoding_in_rows label.now (map row_of table.now) }
{
    let mut left = table;
    'labels: while let [row, others @ ..] = left {
        if is_listed(row.0, label) {
            return Some(row.1);
        }
        left = others;
    }
    None
}

/// Returns the encoding of a label, in any case and with any space bytes at its ends, if it is one.
pub fn encoding_of_label(label: &[u8]) -> Option<Encoding>
    ensures { result ≡ encoding_of_label_of label.now }
{
    encoding_in(&LABELS, label)
}
