//! The kinds of what is found, each in words.
ghost use Rattle.std.specs.Prelude.{◌≡◌};
ghost use Rattle.css_lint.specs.Places.{is_related as is_related_of};
ghost use Rattle.css_lint.specs.Words.{words_of};

/// How bad it is.
#[derive(Clone, Copy)]
pub enum Severity {
    /// Browsers leave something out.
    Error,
    /// Something does nothing, or probably not what was meant.
    Warning,
    /// It may be meant.
    Note,
}

/// What a kind is.
#[derive(Clone, Copy)]
pub struct About {
    /// What it means, in a sentence.
    pub text: &'static str,
    /// How bad it is.
    pub severity: Severity,
    /// A sheet with this mistake alone, or nothing.
    pub wrong: &'static str,
    /// The sheet without it.
    pub right: &'static str,
}

/// What is found.
#[derive(Clone, Copy)]
pub enum Kind {
    /// A string has no end on its line.
    BadString,
    /// A url without quotes has no end, or a blank or a quote in it.
    BadUrl,
    /// No `}` ends the block of this rule.
    BlockNotClosed,
    /// This is not a declaration: it has no colon or no value, for example.
    BrokenDeclaration,
    /// No `*/` ends the comment.
    CommentNotClosed,
    /// Standards had this at-rule, and browsers do not read it.
    DeprecatedAtRule,
    /// No device is of this type, and browsers know it only for old sheets.
    DeprecatedMediaType,
    /// A rule without a declaration does nothing.
    EmptyRule,
    /// The direction of a gradient is written with `to`, such as `to top`.
    GradientDirection,
    /// The rows of a grid have the same number of cells.
    GridAreas,
    /// Browsers leave out a declaration with `!important` in keyframes.
    ImportantInKeyframes,
    /// A colour has three, four, six or eight hexadecimal digits.
    InvalidColor,
    /// A keyframe is `from`, `to` or a percentage from 0% to 100%.
    InvalidKeyframe,
    /// `and`, `or` and `not` have a blank before a parenthesis.
    InvalidMediaQuery,
    /// `@property` registers a name with `--`, and a syntax of types that are known.
    InvalidPropertyRule,
    /// Browsers leave out a rule with an invalid selector.
    InvalidSelector,
    /// The property takes no such value, neither by the standards nor in browsers.
    InvalidValue,
    /// This is not the white space of CSS, but a part of a name.
    IrregularWhitespace,
    /// `@charset` counts only as the first bytes of a sheet.
    LateCharset,
    /// No rule may be before an `@import` but names of layers, and no rule between two.
    LateImport,
    /// No rule may be before an `@namespace` but an `@import` and names of layers.
    LateNamespace,
    /// A word after `!` is nearly `important`.
    MisspeltImportant,
    /// A custom property is referred to by `var()`.
    MissingVar,
    /// A rule has no `{`.
    NoBlock,
    /// A shorthand after it in the block sets what this one does.
    OverriddenDeclaration,
    /// The same property is set again in the block, and this one is lost.
    RepeatedDeclaration,
    /// The same font is in the list again.
    RepeatedFont,
    /// The same sheet is imported again with the same conditions.
    RepeatedImport,
    /// The same keyframe is there again.
    RepeatedKeyframe,
    /// The same custom property is set before in the block.
    RepeatedProperty,
    /// A rule before it in the same block has the same selectors.
    RepeatedRule,
    /// The same selector is in the list again.
    RepeatedSelector,
    /// The next declaration is read as a part of this one.
    SemicolonMissing,
    /// This closes a bracket that nothing opens.
    StrayBracket,
    /// Brackets are in brackets so deep that they are left out.
    TooDeep,
    /// A length that is not 0 has a unit.
    UnitMissing,
    /// The name is not among those of standards and browsers.
    UnknownAtRule,
    /// The name is not among those of standards and browsers.
    UnknownFunction,
    /// A list says the order of layers, and none names this one.
    UnknownLayer,
    /// The name is not among those of standards and browsers.
    UnknownMediaFeature,
    /// The name is not among those of standards and browsers.
    UnknownProperty,
    /// Browsers leave out a rule with a pseudo-class that they do not know.
    UnknownPseudoClass,
    /// Browsers leave out a rule with a pseudo-element that they do not know.
    UnknownPseudoElement,
    /// The name is not among those of elements of HTML, SVG and MathML.
    UnknownType,
    /// The unit is not among those of standards and browsers.
    UnknownUnit,
    /// Nothing in the sheet declares the custom property, and the reference has no fallback.
    UnknownVariable,
    /// No element has this index, since they begin at 1.
    UnmatchableNth,
    /// `+` and `-` have blanks before and after them in a calculation.
    UnspacedOperator,
    /// The end of the text ends a string or a bracket.
    ValueNotClosed,
    /// Unsupported at-rule: valid, and this library does nothing with it.
    UnsupportedAtRule,
    /// Unsupported condition: valid, and this library does not know whether it holds.
    UnsupportedCondition,
    /// Unsupported hack: a property with `*` or `_` before it, for old browsers.
    UnsupportedHack,
    /// Unsupported nested rule: valid, and this library does not read it.
    UnsupportedNestedRule,
    /// Unsupported pseudo-class: valid, and no element is in this state here.
    UnsupportedPseudoClass,
    /// Unsupported selector: valid, and this library matches no element with it.
    UnsupportedSelector,
}

/// All kinds, in the order of their words; those at the end are found only if they are asked for.
pub const KINDS: [Kind; 55] = [
    Kind::BadString,
    Kind::BadUrl,
    Kind::BlockNotClosed,
    Kind::BrokenDeclaration,
    Kind::CommentNotClosed,
    Kind::DeprecatedAtRule,
    Kind::DeprecatedMediaType,
    Kind::EmptyRule,
    Kind::GradientDirection,
    Kind::GridAreas,
    Kind::ImportantInKeyframes,
    Kind::InvalidColor,
    Kind::InvalidKeyframe,
    Kind::InvalidMediaQuery,
    Kind::InvalidPropertyRule,
    Kind::InvalidSelector,
    Kind::InvalidValue,
    Kind::IrregularWhitespace,
    Kind::LateCharset,
    Kind::LateImport,
    Kind::LateNamespace,
    Kind::MisspeltImportant,
    Kind::MissingVar,
    Kind::NoBlock,
    Kind::OverriddenDeclaration,
    Kind::RepeatedDeclaration,
    Kind::RepeatedFont,
    Kind::RepeatedImport,
    Kind::RepeatedKeyframe,
    Kind::RepeatedProperty,
    Kind::RepeatedRule,
    Kind::RepeatedSelector,
    Kind::SemicolonMissing,
    Kind::StrayBracket,
    Kind::TooDeep,
    Kind::UnitMissing,
    Kind::UnknownAtRule,
    Kind::UnknownFunction,
    Kind::UnknownLayer,
    Kind::UnknownMediaFeature,
    Kind::UnknownProperty,
    Kind::UnknownPseudoClass,
    Kind::UnknownPseudoElement,
    Kind::UnknownType,
    Kind::UnknownUnit,
    Kind::UnknownVariable,
    Kind::UnmatchableNth,
    Kind::UnspacedOperator,
    Kind::ValueNotClosed,
    Kind::UnsupportedAtRule,
    Kind::UnsupportedCondition,
    Kind::UnsupportedHack,
    Kind::UnsupportedNestedRule,
    Kind::UnsupportedPseudoClass,
    Kind::UnsupportedSelector,
];

impl Severity {
    /// Returns the word for it.
    pub fn word(self) -> &'static str {
        match self {
            Severity::Error => "error",
            Severity::Warning => "warning",
            Severity::Note => "note",
        }
    }
}

impl Kind {
    /// Whether the findings of the kind are a relation of places, which has a definition. The others are guesses.
    pub fn is_related(self) -> bool
        ensures { result ≡ is_related_of self }
    {
        matches!(
            self,
            Kind::ImportantInKeyframes
                | Kind::LateCharset
                | Kind::LateImport
                | Kind::LateNamespace
                | Kind::RepeatedImport
                | Kind::RepeatedProperty
                | Kind::RepeatedRule
                | Kind::RepeatedSelector
        )
    }

    /// Returns the kind in a few words.
    pub fn words(self) -> &'static str
        ensures { result.now ≡ words_of self }
    {
        match self {
            Kind::BadString => "bad string",
            Kind::BadUrl => "bad url",
            Kind::BlockNotClosed => "block not closed",
            Kind::BrokenDeclaration => "broken declaration",
            Kind::CommentNotClosed => "comment not closed",
            Kind::DeprecatedAtRule => "deprecated at-rule",
            Kind::DeprecatedMediaType => "deprecated media type",
            Kind::EmptyRule => "empty rule",
            Kind::GradientDirection => "gradient direction",
            Kind::GridAreas => "grid areas",
            Kind::ImportantInKeyframes => "important in keyframes",
            Kind::InvalidColor => "invalid color",
            Kind::InvalidKeyframe => "invalid keyframe",
            Kind::InvalidMediaQuery => "invalid media query",
            Kind::InvalidPropertyRule => "invalid property rule",
            Kind::InvalidSelector => "invalid selector",
            Kind::InvalidValue => "invalid value",
            Kind::IrregularWhitespace => "irregular whitespace",
            Kind::LateCharset => "late charset",
            Kind::LateImport => "late import",
            Kind::LateNamespace => "late namespace",
            Kind::MisspeltImportant => "misspelt important",
            Kind::MissingVar => "missing var",
            Kind::NoBlock => "no block",
            Kind::OverriddenDeclaration => "overridden declaration",
            Kind::RepeatedDeclaration => "repeated declaration",
            Kind::RepeatedFont => "repeated font",
            Kind::RepeatedImport => "repeated import",
            Kind::RepeatedKeyframe => "repeated keyframe",
            Kind::RepeatedProperty => "repeated property",
            Kind::RepeatedRule => "repeated rule",
            Kind::RepeatedSelector => "repeated selector",
            Kind::SemicolonMissing => "semicolon missing",
            Kind::StrayBracket => "stray bracket",
            Kind::TooDeep => "too deep",
            Kind::UnitMissing => "unit missing",
            Kind::UnknownAtRule => "unknown at-rule",
            Kind::UnknownFunction => "unknown function",
            Kind::UnknownLayer => "unknown layer",
            Kind::UnknownMediaFeature => "unknown media feature",
            Kind::UnknownProperty => "unknown property",
            Kind::UnknownPseudoClass => "unknown pseudo-class",
            Kind::UnknownPseudoElement => "unknown pseudo-element",
            Kind::UnknownType => "unknown type",
            Kind::UnknownUnit => "unknown unit",
            Kind::UnknownVariable => "unknown variable",
            Kind::UnmatchableNth => "unmatchable nth",
            Kind::UnspacedOperator => "unspaced operator",
            Kind::ValueNotClosed => "value not closed",
            Kind::UnsupportedAtRule => "unsupported at-rule",
            Kind::UnsupportedCondition => "unsupported condition",
            Kind::UnsupportedHack => "unsupported hack",
            Kind::UnsupportedNestedRule => "unsupported nested rule",
            Kind::UnsupportedPseudoClass => "unsupported pseudo-class",
            Kind::UnsupportedSelector => "unsupported selector",
        }
    }

    /// Returns what the kind is.
    pub fn about(self) -> About {
        match self {
            Kind::BadString => About {
                text: "a string has no end on its line",
                severity: Severity::Error,
                wrong: "a { content: 'x\n; top: 0 }",
                right: "a { content: 'x'; top: 0 }",
            },
            Kind::BadUrl => About {
                text: "a url without quotes has no end, or a blank or a quote in it",
                severity: Severity::Error,
                wrong: "a { background: url(a b.png) }",
                right: "a { background: url(a%20b.png) }",
            },
            Kind::BlockNotClosed => About {
                text: "no `}` ends the block of this rule",
                severity: Severity::Error,
                wrong: "a { top: 0",
                right: "a { top: 0 }",
            },
            Kind::BrokenDeclaration => About {
                text: "this is not a declaration: it has no colon or no value, for example",
                severity: Severity::Error,
                wrong: "a { top 0; left: 0 }",
                right: "a { top: 0; left: 0 }",
            },
            Kind::CommentNotClosed => About {
                text: "no `*/` ends the comment",
                severity: Severity::Error,
                wrong: "a { top: 0 } /* b",
                right: "a { top: 0 } /* b */",
            },
            Kind::DeprecatedAtRule => About {
                text: "standards had this at-rule, and browsers do not read it",
                severity: Severity::Warning,
                wrong: "@viewport { width: device-width }",
                right: "a { top: 0 }",
            },
            Kind::DeprecatedMediaType => About {
                text: "no device is of this type, and browsers know it only for old sheets",
                severity: Severity::Warning,
                wrong: "@media tv { a { top: 0 } }",
                right: "@media screen { a { top: 0 } }",
            },
            Kind::EmptyRule => About {
                text: "a rule without a declaration does nothing",
                severity: Severity::Warning,
                wrong: "a { }",
                right: "a { top: 0 }",
            },
            Kind::GradientDirection => About {
                text: "the direction of a gradient is written with `to`, such as `to top`",
                severity: Severity::Error,
                wrong: "a { background: linear-gradient(top, red, blue) }",
                right: "a { background: linear-gradient(to top, red, blue) }",
            },
            Kind::GridAreas => About {
                text: "the rows of a grid have the same number of cells",
                severity: Severity::Error,
                wrong: "a { grid-template-areas: 'a a' 'b' }",
                right: "a { grid-template-areas: 'a a' 'b b' }",
            },
            Kind::ImportantInKeyframes => About {
                text: "browsers leave out a declaration with `!important` in keyframes",
                severity: Severity::Error,
                wrong: "@keyframes k { to { top: 0 !important } }",
                right: "@keyframes k { to { top: 0 } }",
            },
            Kind::InvalidColor => About {
                text: "a colour has three, four, six or eight hexadecimal digits",
                severity: Severity::Error,
                wrong: "a { color: #12345 }",
                right: "a { color: #123456 }",
            },
            Kind::InvalidKeyframe => About {
                text: "a keyframe is `from`, `to` or a percentage from 0% to 100%",
                severity: Severity::Error,
                wrong: "@keyframes k { form { top: 0 } }",
                right: "@keyframes k { from { top: 0 } }",
            },
            Kind::InvalidMediaQuery => About {
                text: "`and`, `or` and `not` have a blank before a parenthesis",
                severity: Severity::Error,
                wrong: "@media screen and(min-width: 1px) { a { top: 0 } }",
                right: "@media screen and (min-width: 1px) { a { top: 0 } }",
            },
            Kind::InvalidPropertyRule => About {
                text: "`@property` registers a name with `--`, and a syntax of types that are known",
                severity: Severity::Error,
                wrong: "@property x { syntax: '*'; inherits: true }",
                right: "@property --x { syntax: '*'; inherits: true }",
            },
            Kind::InvalidSelector => About {
                text: "browsers leave out a rule with an invalid selector",
                severity: Severity::Error,
                wrong: "a, { top: 0 }",
                right: "a, b { top: 0 }",
            },
            Kind::InvalidValue => About {
                text: "the property takes no such value, neither by the standards nor in browsers",
                severity: Severity::Error,
                wrong: "a { color: reed }",
                right: "a { color: red }",
            },
            Kind::IrregularWhitespace => About {
                text: "this is not the white space of CSS, but a part of a name",
                severity: Severity::Error,
                wrong: "a { top:\u{a0}0 }",
                right: "a { top: 0 }",
            },
            Kind::LateCharset => About {
                text: "`@charset` counts only as the first bytes of a sheet",
                severity: Severity::Warning,
                wrong: "a { top: 0 }\n@charset 'utf-8';",
                right: "@charset 'utf-8';\na { top: 0 }",
            },
            Kind::LateImport => About {
                text: "no rule may be before an `@import` but names of layers, and no rule between two",
                severity: Severity::Error,
                wrong: "a { top: 0 }\n@import 'b.css';",
                right: "@import 'b.css';\na { top: 0 }",
            },
            Kind::LateNamespace => About {
                text: "no rule may be before an `@namespace` but an `@import` and names of layers",
                severity: Severity::Error,
                wrong: "a { top: 0 }\n@namespace s url(http://www.w3.org/2000/svg);",
                right: "@namespace s url(http://www.w3.org/2000/svg);\na { top: 0 }",
            },
            Kind::MisspeltImportant => About {
                text: "a word after `!` is nearly `important`",
                severity: Severity::Error,
                wrong: "a { top: 0 !importnat }",
                right: "a { top: 0 !important }",
            },
            Kind::MissingVar => About {
                text: "a custom property is referred to by `var()`",
                severity: Severity::Error,
                wrong: "a { --x: red; color: --x }",
                right: "a { --x: red; color: var(--x) }",
            },
            Kind::NoBlock => About {
                text: "a rule has no `{`",
                severity: Severity::Error,
                wrong: "a { top: 0 }\nb",
                right: "a { top: 0 }\nb { top: 0 }",
            },
            Kind::OverriddenDeclaration => About {
                text: "a shorthand after it in the block sets what this one does",
                severity: Severity::Warning,
                wrong: "a { margin-top: 0; margin: 1px }",
                right: "a { margin: 1px; margin-top: 0 }",
            },
            Kind::RepeatedDeclaration => About {
                text: "the same property is set again in the block, and this one is lost",
                severity: Severity::Warning,
                wrong: "a { top: 0; left: 0; top: 1px }",
                right: "a { left: 0; top: 1px }",
            },
            Kind::RepeatedFont => About {
                text: "the same font is in the list again",
                severity: Severity::Warning,
                wrong: "a { font-family: Times, serif, Times }",
                right: "a { font-family: Times, serif }",
            },
            Kind::RepeatedImport => About {
                text: "the same sheet is imported again with the same conditions",
                severity: Severity::Warning,
                wrong: "@import 'a.css';\n@import 'a.css';",
                right: "@import 'a.css';\n@import 'b.css';",
            },
            Kind::RepeatedKeyframe => About {
                text: "the same keyframe is there again",
                severity: Severity::Warning,
                wrong: "@keyframes k { to { top: 0 } to { left: 0 } }",
                right: "@keyframes k { from { top: 0 } to { left: 0 } }",
            },
            Kind::RepeatedProperty => About {
                text: "the same custom property is set before in the block",
                severity: Severity::Warning,
                wrong: "a { --x: 0; --x: 1 }",
                right: "a { --x: 1 }",
            },
            Kind::RepeatedRule => About {
                text: "a rule before it in the same block has the same selectors",
                severity: Severity::Note,
                wrong: "a { top: 0 }\nb { top: 0 }\na { left: 0 }",
                right: "a { top: 0; left: 0 }\nb { top: 0 }",
            },
            Kind::RepeatedSelector => About {
                text: "the same selector is in the list again",
                severity: Severity::Warning,
                wrong: "a, b, a { top: 0 }",
                right: "a, b { top: 0 }",
            },
            Kind::SemicolonMissing => About {
                text: "the next declaration is read as a part of this one",
                severity: Severity::Error,
                wrong: "a { top: 0\n left: 0 }",
                right: "a { top: 0;\n left: 0 }",
            },
            Kind::StrayBracket => About {
                text: "this closes a bracket that nothing opens",
                severity: Severity::Error,
                wrong: "a { top: 0 } }\nb { left: 0 }",
                right: "a { top: 0 }\nb { left: 0 }",
            },
            Kind::TooDeep => About {
                text: "brackets are in brackets so deep that they are left out",
                severity: Severity::Error,
                wrong: "",
                right: "",
            },
            Kind::UnitMissing => About {
                text: "a length that is not 0 has a unit",
                severity: Severity::Error,
                wrong: "@media (min-width: 600) { a { top: 0 } }",
                right: "@media (min-width: 600px) { a { top: 0 } }",
            },
            Kind::UnknownAtRule => About {
                text: "the name is not among those of standards and browsers",
                severity: Severity::Error,
                wrong: "@medai print { a { top: 0 } }",
                right: "@media print { a { top: 0 } }",
            },
            Kind::UnknownFunction => About {
                text: "the name is not among those of standards and browsers",
                severity: Severity::Error,
                wrong: "a { width: clac(1px + 2px) }",
                right: "a { width: calc(1px + 2px) }",
            },
            Kind::UnknownLayer => About {
                text: "a list says the order of layers, and none names this one",
                severity: Severity::Note,
                wrong: "@layer base, page;\n@layer pgae { a { top: 0 } }",
                right: "@layer base, page;\n@layer page { a { top: 0 } }",
            },
            Kind::UnknownMediaFeature => About {
                text: "the name is not among those of standards and browsers",
                severity: Severity::Error,
                wrong: "@media (min-widht: 3px) { a { top: 0 } }",
                right: "@media (min-width: 3px) { a { top: 0 } }",
            },
            Kind::UnknownProperty => About {
                text: "the name is not among those of standards and browsers",
                severity: Severity::Error,
                wrong: "a { colr: red }",
                right: "a { color: red }",
            },
            Kind::UnknownPseudoClass => About {
                text: "browsers leave out a rule with a pseudo-class that they do not know",
                severity: Severity::Error,
                wrong: "a:hoverr { top: 0 }",
                right: "a:hover { top: 0 }",
            },
            Kind::UnknownPseudoElement => About {
                text: "browsers leave out a rule with a pseudo-element that they do not know",
                severity: Severity::Error,
                wrong: "p::befor { top: 0 }",
                right: "p::before { top: 0 }",
            },
            Kind::UnknownType => About {
                text: "the name is not among those of elements of HTML, SVG and MathML",
                severity: Severity::Warning,
                wrong: "tabel { top: 0 }",
                right: "table { top: 0 }",
            },
            Kind::UnknownUnit => About {
                text: "the unit is not among those of standards and browsers",
                severity: Severity::Error,
                wrong: "a { top: 1pxx }",
                right: "a { top: 1px }",
            },
            Kind::UnknownVariable => About {
                text: "nothing in the sheet declares the custom property, and the reference has no fallback",
                severity: Severity::Note,
                wrong: "a { --x: 0; top: var(--y) }",
                right: "a { --x: 0; top: var(--x) }",
            },
            Kind::UnmatchableNth => About {
                text: "no element has this index, since they begin at 1",
                severity: Severity::Error,
                wrong: "a:nth-child(0) { top: 0 }",
                right: "a:nth-child(1) { top: 0 }",
            },
            Kind::UnspacedOperator => About {
                text: "`+` and `-` have blanks before and after them in a calculation",
                severity: Severity::Error,
                wrong: "a { width: calc(1px+2px) }",
                right: "a { width: calc(1px + 2px) }",
            },
            Kind::ValueNotClosed => About {
                text: "the end of the text ends a string or a bracket",
                severity: Severity::Error,
                wrong: "a { content: 'b",
                right: "a { content: 'b' }",
            },
            Kind::UnsupportedAtRule => About {
                text: "valid, and this library does nothing with it",
                severity: Severity::Note,
                wrong: "",
                right: "",
            },
            Kind::UnsupportedCondition => About {
                text: "valid, and this library does not know whether it holds",
                severity: Severity::Note,
                wrong: "",
                right: "",
            },
            Kind::UnsupportedHack => About {
                text: "a property with `*` or `_` before it, for old browsers",
                severity: Severity::Note,
                wrong: "",
                right: "",
            },
            Kind::UnsupportedNestedRule => About {
                text: "valid, and this library does not read it",
                severity: Severity::Note,
                wrong: "",
                right: "",
            },
            Kind::UnsupportedPseudoClass => About {
                text: "valid, and no element is in this state here",
                severity: Severity::Note,
                wrong: "",
                right: "",
            },
            Kind::UnsupportedSelector => About {
                text: "valid, and this library matches no element with it",
                severity: Severity::Note,
                wrong: "",
                right: "",
            },
        }
    }
}
