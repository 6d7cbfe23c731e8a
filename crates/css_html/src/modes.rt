//! How the next token of a page is read. Tree construction says which of these is next.
ghost use Rattle.std.specs.Prelude.{◌≡◌};
ghost use Rattle.css_html.specs.Modes.{letters_of as letters_of_name};

/// An element whose text is not markup.
#[derive(Clone, Copy, Debug, PartialEq)]
pub enum RawName {
    Title,
    Textarea,
    Style,
    Xmp,
    Iframe,
    Noembed,
    Noframes,
    Noscript,
}

/// How a text is read.
#[derive(Clone, Copy, Debug, PartialEq)]
pub enum Mode {
    /// As markup.
    Data,
    /// As markup in an element of SVG or MathML, which may have CDATA sections.
    Foreign,
    /// Up to the end tag of this element.
    Raw(RawName),
    /// Up to the end tag of a script.
    Script,
    /// As text to its end.
    Plaintext,
}

const TITLE: &[u8] = b"title";

const TEXTAREA: &[u8] = b"textarea";

const STYLE: &[u8] = b"style";

const XMP: &[u8] = b"xmp";

const IFRAME: &[u8] = b"iframe";

const NOEMBED: &[u8] = b"noembed";

const NOFRAMES: &[u8] = b"noframes";

const NOSCRIPT: &[u8] = b"noscript";

/// Returns the name of the element, in lower case.
pub fn letters_of(name: RawName) -> &'static [u8]
    ensures { result.now ≡ letters_of_name name }
{
    match name {
        RawName::Title => TITLE,
        RawName::Textarea => TEXTAREA,
        RawName::Style => STYLE,
        RawName::Xmp => XMP,
        RawName::Iframe => IFRAME,
        RawName::Noembed => NOEMBED,
        RawName::Noframes => NOFRAMES,
        RawName::Noscript => NOSCRIPT,
    }
}
