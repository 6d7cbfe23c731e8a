//! The names of elements that tree construction knows.

/// The name of an element that has rules of its own, or another one.
#[derive(Clone, Copy, Debug, PartialEq)]
pub enum Name {
    A,
    Address,
    AnnotationXml,
    Applet,
    Area,
    Article,
    Aside,
    B,
    Base,
    Basefont,
    Bgsound,
    Big,
    Blockquote,
    Body,
    Br,
    Button,
    Caption,
    Center,
    Code,
    Col,
    Colgroup,
    Dd,
    Desc,
    Details,
    Dialog,
    Dir,
    Div,
    Dl,
    Dt,
    Em,
    Embed,
    Fieldset,
    Figcaption,
    Figure,
    Font,
    Footer,
    ForeignObject,
    Form,
    Frame,
    Frameset,
    H1,
    H2,
    H3,
    H4,
    H5,
    H6,
    Head,
    Header,
    Hgroup,
    Hr,
    Html,
    I,
    Iframe,
    Image,
    Img,
    Input,
    Keygen,
    Li,
    Link,
    Listing,
    Main,
    Malignmark,
    Marquee,
    Math,
    Menu,
    Meta,
    Mglyph,
    Mi,
    Mn,
    Mo,
    Ms,
    Mtext,
    Nav,
    Nobr,
    Noembed,
    Noframes,
    Noscript,
    Object,
    Ol,
    Optgroup,
    Option,
    P,
    Param,
    Plaintext,
    Pre,
    Rb,
    Rp,
    Rt,
    Rtc,
    Ruby,
    S,
    Script,
    Search,
    Section,
    Select,
    Small,
    Source,
    Span,
    Strike,
    Strong,
    Style,
    Sub,
    Summary,
    Sup,
    Svg,
    Table,
    Tbody,
    Td,
    Template,
    Textarea,
    Tfoot,
    Th,
    Thead,
    Title,
    Tr,
    Track,
    Tt,
    U,
    Ul,
    Var,
    Wbr,
    Xmp,
    /// A name without rules.
    Other,
}

/// A name, and its letters in lower case.
type Named = (&'static [u8], Name);

/// The number of names that have rules.
pub(crate) const NAMES: usize = 122;

const A: &[Named] = &[
    (b"a", Name::A),
    (b"address", Name::Address),
    (b"annotation-xml", Name::AnnotationXml),
    (b"applet", Name::Applet),
    (b"area", Name::Area),
    (b"article", Name::Article),
    (b"aside", Name::Aside),
];

const B: &[Named] = &[
    (b"b", Name::B),
    (b"base", Name::Base),
    (b"basefont", Name::Basefont),
    (b"bgsound", Name::Bgsound),
    (b"big", Name::Big),
    (b"blockquote", Name::Blockquote),
    (b"body", Name::Body),
    (b"br", Name::Br),
    (b"button", Name::Button),
];

const C: &[Named] = &[
    (b"caption", Name::Caption),
    (b"center", Name::Center),
    (b"code", Name::Code),
    (b"col", Name::Col),
    (b"colgroup", Name::Colgroup),
];

const D: &[Named] = &[
    (b"dd", Name::Dd),
    (b"desc", Name::Desc),
    (b"details", Name::Details),
    (b"dialog", Name::Dialog),
    (b"dir", Name::Dir),
    (b"div", Name::Div),
    (b"dl", Name::Dl),
    (b"dt", Name::Dt),
];

const E: &[Named] = &[(b"em", Name::Em), (b"embed", Name::Embed)];

const F: &[Named] = &[
    (b"fieldset", Name::Fieldset),
    (b"figcaption", Name::Figcaption),
    (b"figure", Name::Figure),
    (b"font", Name::Font),
    (b"footer", Name::Footer),
    (b"foreignobject", Name::ForeignObject),
    (b"form", Name::Form),
    (b"frame", Name::Frame),
    (b"frameset", Name::Frameset),
];

const H: &[Named] = &[
    (b"h1", Name::H1),
    (b"h2", Name::H2),
    (b"h3", Name::H3),
    (b"h4", Name::H4),
    (b"h5", Name::H5),
    (b"h6", Name::H6),
    (b"head", Name::Head),
    (b"header", Name::Header),
    (b"hgroup", Name::Hgroup),
    (b"hr", Name::Hr),
    (b"html", Name::Html),
];

const I: &[Named] = &[
    (b"i", Name::I),
    (b"iframe", Name::Iframe),
    (b"image", Name::Image),
    (b"img", Name::Img),
    (b"input", Name::Input),
];

const K: &[Named] = &[(b"keygen", Name::Keygen)];

const L: &[Named] = &[
    (b"li", Name::Li),
    (b"link", Name::Link),
    (b"listing", Name::Listing),
];

const M: &[Named] = &[
    (b"main", Name::Main),
    (b"malignmark", Name::Malignmark),
    (b"marquee", Name::Marquee),
    (b"math", Name::Math),
    (b"menu", Name::Menu),
    (b"meta", Name::Meta),
    (b"mglyph", Name::Mglyph),
    (b"mi", Name::Mi),
    (b"mn", Name::Mn),
    (b"mo", Name::Mo),
    (b"ms", Name::Ms),
    (b"mtext", Name::Mtext),
];

const N: &[Named] = &[
    (b"nav", Name::Nav),
    (b"nobr", Name::Nobr),
    (b"noembed", Name::Noembed),
    (b"noframes", Name::Noframes),
    (b"noscript", Name::Noscript),
];

const O: &[Named] = &[
    (b"object", Name::Object),
    (b"ol", Name::Ol),
    (b"optgroup", Name::Optgroup),
    (b"option", Name::Option),
];

const P: &[Named] = &[
    (b"p", Name::P),
    (b"param", Name::Param),
    (b"plaintext", Name::Plaintext),
    (b"pre", Name::Pre),
];

const R: &[Named] = &[
    (b"rb", Name::Rb),
    (b"rp", Name::Rp),
    (b"rt", Name::Rt),
    (b"rtc", Name::Rtc),
    (b"ruby", Name::Ruby),
];

const S: &[Named] = &[
    (b"s", Name::S),
    (b"script", Name::Script),
    (b"search", Name::Search),
    (b"section", Name::Section),
    (b"select", Name::Select),
    (b"small", Name::Small),
    (b"source", Name::Source),
    (b"span", Name::Span),
    (b"strike", Name::Strike),
    (b"strong", Name::Strong),
    (b"style", Name::Style),
    (b"sub", Name::Sub),
    (b"summary", Name::Summary),
    (b"sup", Name::Sup),
    (b"svg", Name::Svg),
];

const T: &[Named] = &[
    (b"table", Name::Table),
    (b"tbody", Name::Tbody),
    (b"td", Name::Td),
    (b"template", Name::Template),
    (b"textarea", Name::Textarea),
    (b"tfoot", Name::Tfoot),
    (b"th", Name::Th),
    (b"thead", Name::Thead),
    (b"title", Name::Title),
    (b"tr", Name::Tr),
    (b"track", Name::Track),
    (b"tt", Name::Tt),
];

const U: &[Named] = &[(b"u", Name::U), (b"ul", Name::Ul)];

const V: &[Named] = &[(b"var", Name::Var)];

const W: &[Named] = &[(b"wbr", Name::Wbr)];

const X: &[Named] = &[(b"xmp", Name::Xmp)];

const NO_NAMES: &[Named] = &[];

/// The names by their first letters.
static BY_LETTER: [&[Named]; 26] = [
    A, B, C, D, E, F, NO_NAMES, H, I, NO_NAMES, K, L, M, N, O, P, NO_NAMES, R, S, T, U, V, W, X,
    NO_NAMES, NO_NAMES,
];

/// The letters of each name, in the order of the names.
static LETTERS: [&[u8]; NAMES] = [
    b"a",
    b"address",
    b"annotation-xml",
    b"applet",
    b"area",
    b"article",
    b"aside",
    b"b",
    b"base",
    b"basefont",
    b"bgsound",
    b"big",
    b"blockquote",
    b"body",
    b"br",
    b"button",
    b"caption",
    b"center",
    b"code",
    b"col",
    b"colgroup",
    b"dd",
    b"desc",
    b"details",
    b"dialog",
    b"dir",
    b"div",
    b"dl",
    b"dt",
    b"em",
    b"embed",
    b"fieldset",
    b"figcaption",
    b"figure",
    b"font",
    b"footer",
    b"foreignobject",
    b"form",
    b"frame",
    b"frameset",
    b"h1",
    b"h2",
    b"h3",
    b"h4",
    b"h5",
    b"h6",
    b"head",
    b"header",
    b"hgroup",
    b"hr",
    b"html",
    b"i",
    b"iframe",
    b"image",
    b"img",
    b"input",
    b"keygen",
    b"li",
    b"link",
    b"listing",
    b"main",
    b"malignmark",
    b"marquee",
    b"math",
    b"menu",
    b"meta",
    b"mglyph",
    b"mi",
    b"mn",
    b"mo",
    b"ms",
    b"mtext",
    b"nav",
    b"nobr",
    b"noembed",
    b"noframes",
    b"noscript",
    b"object",
    b"ol",
    b"optgroup",
    b"option",
    b"p",
    b"param",
    b"plaintext",
    b"pre",
    b"rb",
    b"rp",
    b"rt",
    b"rtc",
    b"ruby",
    b"s",
    b"script",
    b"search",
    b"section",
    b"select",
    b"small",
    b"source",
    b"span",
    b"strike",
    b"strong",
    b"style",
    b"sub",
    b"summary",
    b"sup",
    b"svg",
    b"table",
    b"tbody",
    b"td",
    b"template",
    b"textarea",
    b"tfoot",
    b"th",
    b"thead",
    b"title",
    b"tr",
    b"track",
    b"tt",
    b"u",
    b"ul",
    b"var",
    b"wbr",
    b"xmp",
];

/// Returns the one of the names whose letters these are, in any case.
fn name_among(names: &[Named], word: &[u8]) -> Name {
    for (letters, name) in names {
        if word.eq_ignore_ascii_case(letters) {
            return *name;
        }
    }
    Name::Other
}

/// Returns the name whose letters these are, in any case.
pub fn name_of(word: &[u8]) -> Name {
    let Some(first) = word.first() else {
        return Name::Other;
    };
    let letter = first.to_ascii_lowercase().wrapping_sub(b'a');
    match BY_LETTER.get(letter as usize) {
        Some(names) => name_among(names, word),
        None => Name::Other,
    }
}

/// Returns the letters of a name, in lower case, or none of a name without rules.
pub fn letters_of(name: Name) -> &'static [u8] {
    match LETTERS.get(name as usize) {
        Some(letters) => letters,
        None => &[],
    }
}

/// The names of elements of SVG with capitals (HTML Standard, section 13.2.6.5).
pub const SVG_NAMES: &[&[u8]] = &[
    b"altGlyph",
    b"altGlyphDef",
    b"altGlyphItem",
    b"animateColor",
    b"animateMotion",
    b"animateTransform",
    b"clipPath",
    b"feBlend",
    b"feColorMatrix",
    b"feComponentTransfer",
    b"feComposite",
    b"feConvolveMatrix",
    b"feDiffuseLighting",
    b"feDisplacementMap",
    b"feDistantLight",
    b"feDropShadow",
    b"feFlood",
    b"feFuncA",
    b"feFuncB",
    b"feFuncG",
    b"feFuncR",
    b"feGaussianBlur",
    b"feImage",
    b"feMerge",
    b"feMergeNode",
    b"feMorphology",
    b"feOffset",
    b"fePointLight",
    b"feSpecularLighting",
    b"feSpotLight",
    b"feTile",
    b"feTurbulence",
    b"foreignObject",
    b"glyphRef",
    b"linearGradient",
    b"radialGradient",
    b"textPath",
];

/// The names of attributes of SVG with capitals (HTML Standard, section 13.2.6.1).
pub const SVG_ATTRIBUTES: &[&[u8]] = &[
    b"attributeName",
    b"attributeType",
    b"baseFrequency",
    b"baseProfile",
    b"calcMode",
    b"clipPathUnits",
    b"diffuseConstant",
    b"edgeMode",
    b"filterUnits",
    b"glyphRef",
    b"gradientTransform",
    b"gradientUnits",
    b"kernelMatrix",
    b"kernelUnitLength",
    b"keyPoints",
    b"keySplines",
    b"keyTimes",
    b"lengthAdjust",
    b"limitingConeAngle",
    b"markerHeight",
    b"markerUnits",
    b"markerWidth",
    b"maskContentUnits",
    b"maskUnits",
    b"numOctaves",
    b"pathLength",
    b"patternContentUnits",
    b"patternTransform",
    b"patternUnits",
    b"pointsAtX",
    b"pointsAtY",
    b"pointsAtZ",
    b"preserveAlpha",
    b"preserveAspectRatio",
    b"primitiveUnits",
    b"refX",
    b"refY",
    b"repeatCount",
    b"repeatDur",
    b"requiredExtensions",
    b"requiredFeatures",
    b"specularConstant",
    b"specularExponent",
    b"spreadMethod",
    b"startOffset",
    b"stdDeviation",
    b"stitchTiles",
    b"surfaceScale",
    b"systemLanguage",
    b"tableValues",
    b"targetX",
    b"targetY",
    b"textLength",
    b"viewBox",
    b"viewTarget",
    b"xChannelSelector",
    b"yChannelSelector",
    b"zoomAndPan",
];

/// Returns the one of these names whose letters a word has, in any case.
pub fn spelled(names: &[&'static [u8]], word: &[u8]) -> Option<&'static [u8]> {
    for letters in names {
        if word.eq_ignore_ascii_case(letters) {
            return Some(*letters);
        }
    }
    None
}

/// The namespace of an element.
#[derive(Clone, Copy, Debug, PartialEq)]
pub enum Space {
    Html,
    Svg,
    Math,
}

/// Whether the name is that of a heading.
pub(crate) fn is_heading(name: Name) -> bool {
    matches!(
        name,
        Name::H1 | Name::H2 | Name::H3 | Name::H4 | Name::H5 | Name::H6
    )
}

/// Whether the end tag of an HTML element with the name may be left out.
pub(crate) fn is_implied(name: Name) -> bool {
    use Name::*;
    matches!(
        name,
        Dd | Dt | Li | Optgroup | Option | P | Rb | Rp | Rt | Rtc
    )
}

/// Whether the name is that of a part of a table.
pub(crate) fn is_table_part(name: Name) -> bool {
    use Name::*;
    matches!(
        name,
        Caption | Col | Colgroup | Tbody | Td | Tfoot | Th | Thead | Tr
    )
}

/// Whether the name is that of a group of rows.
pub(crate) fn is_row_group(name: Name) -> bool {
    matches!(name, Name::Tbody | Name::Tfoot | Name::Thead)
}

/// Whether the content of an HTML element with the name goes before the table that it is in.
pub(crate) fn is_fostering(name: Name) -> bool {
    is_row_group(name) || matches!(name, Name::Table | Name::Tr)
}

/// Whether the element is special (HTML Standard, section 13.2.4.2).
pub(crate) fn is_special(space: Space, name: Name) -> bool {
    match space {
        Space::Html => is_special_html(name),
        Space::Svg => matches!(name, Name::ForeignObject | Name::Desc | Name::Title),
        Space::Math => is_math_text(name) || name == Name::AnnotationXml,
    }
}

/// Whether an element of MathML with the name has HTML in its texts.
pub(crate) fn is_math_text(name: Name) -> bool {
    matches!(
        name,
        Name::Mi | Name::Mo | Name::Mn | Name::Ms | Name::Mtext
    )
}

/// Whether the HTML element is special.
fn is_special_html(name: Name) -> bool {
    use Name::*;
    is_table_part(name)
        || is_heading(name)
        || matches!(
            name,
            Address
                | Applet
                | Area
                | Article
                | Aside
                | Base
                | Basefont
                | Bgsound
                | Blockquote
                | Body
                | Br
                | Button
                | Center
                | Dd
                | Details
                | Dir
                | Div
                | Dl
                | Dt
                | Embed
                | Fieldset
                | Figcaption
                | Figure
                | Footer
                | Form
                | Frame
                | Frameset
                | Head
                | Header
                | Hgroup
                | Hr
                | Html
                | Iframe
                | Img
                | Input
                | Keygen
                | Li
                | Link
                | Listing
                | Main
                | Marquee
                | Menu
                | Meta
                | Nav
                | Noembed
                | Noframes
                | Noscript
                | Object
                | Ol
                | P
                | Param
                | Plaintext
                | Pre
                | Script
                | Search
                | Section
                | Select
                | Source
                | Style
                | Summary
                | Table
                | Template
                | Textarea
                | Title
                | Track
                | Ul
                | Wbr
                | Xmp
        )
}

/// Whether a start tag with the name ends SVG and MathML.
pub(crate) fn is_breakout(name: Name) -> bool {
    use Name::*;
    is_heading(name)
        || matches!(
            name,
            B | Big
                | Blockquote
                | Body
                | Br
                | Center
                | Code
                | Dd
                | Div
                | Dl
                | Dt
                | Em
                | Embed
                | Head
                | Hr
                | I
                | Img
                | Li
                | Listing
                | Menu
                | Meta
                | Nobr
                | Ol
                | P
                | Pre
                | Ruby
                | S
                | Small
                | Span
                | Strong
                | Strike
                | Sub
                | Sup
                | Table
                | Tt
                | U
                | Ul
                | Var
        )
}

/// Which open elements a search for another one stops at (HTML Standard, section 13.2.4.2).
#[derive(Clone, Copy, PartialEq)]
pub(crate) enum Scope {
    Default,
    List,
    Button,
    Table,
}

/// Whether a search in the scope stops at the element.
pub(crate) fn ends_scope(scope: Scope, space: Space, name: Name) -> bool {
    if space != Space::Html {
        return scope != Scope::Table && is_special(space, name);
    }
    match name {
        Name::Html | Name::Table | Name::Template => true,
        Name::Applet | Name::Caption | Name::Td | Name::Th => scope != Scope::Table,
        Name::Marquee | Name::Object | Name::Select => scope != Scope::Table,
        Name::Ol | Name::Ul => scope == Scope::List,
        Name::Button => scope == Scope::Button,
        _ => false,
    }
}
