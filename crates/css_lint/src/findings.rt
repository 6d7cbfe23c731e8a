//! What is found in a sheet.
ghost use Rattle.std.specs.Prelude.{◌≡◌};
ghost use Rattle.css_lint.specs.Places.{place_of, sized as sized_of};

use crate::kinds::Kind;
use crate::vocabulary::Near;

/// What was probably meant: a sign and a known name.
#[derive(Clone, Copy)]
pub struct Meant {
    /// What is before the name, as `@` or `::`.
    pub sign: &'static str,
    /// The name.
    pub name: &'static str,
}

/// An edit that corrects a mistake: what is written in place of the bytes between two offsets.
#[derive(Clone, Copy)]
pub struct Edit {
    /// The offset of the first byte that is replaced.
    pub start: usize,
    /// The offset after the last one.
    pub end: usize,
    /// What is written.
    pub text: Meant,
}

/// Something that is found in a sheet.
#[derive(Clone, Copy)]
pub struct Finding {
    /// What it is.
    pub kind: Kind,
    /// The offset of its first byte.
    pub start: usize,
    /// The offset after its last byte.
    pub end: usize,
    /// What was probably meant.
    pub meant: Option<Meant>,
    /// What corrects it, if one answer is right.
    pub edit: Option<Edit>,
}

impl Finding {
    /// Returns a finding of which it is not known what was meant.
    pub fn new(kind: Kind, start: usize, end: usize) -> Finding
        ensures { place_of result ≡ record { kind = kind; start = start; end = end } }
    {
        Finding {
            kind,
            start,
            end,
            meant: None,
            edit: None,
        }
    }

    /// Returns a finding from an offset on, of as many bytes.
    pub fn sized(kind: Kind, start: usize, size: usize) -> Finding
        ensures { place_of result ≡ sized_of kind start size }
    {
        Finding::new(kind, start, start.saturating_add(size))
    }

    /// Returns a finding that another text corrects.
    pub fn corrected(kind: Kind, start: usize, end: usize, text: Meant) -> Finding {
        Finding {
            kind,
            start,
            end,
            meant: Some(text),
            edit: Some(Edit { start, end, text }),
        }
    }

    /// Returns a declaration after which a semicolon is missing.
    pub fn unseparated(start: usize, end: usize) -> Finding {
        Finding {
            kind: Kind::SemicolonMissing,
            start,
            end,
            meant: None,
            edit: Some(Edit {
                start: end,
                end,
                text: Meant {
                    sign: ";",
                    name: "",
                },
            }),
        }
    }

    /// Returns a finding of an unknown name, by the known one that is near, with this sign.
    pub fn named(
        kind: Kind,
        start: usize,
        end: usize,
        sign: &'static str,
        near: Option<Near>,
    ) -> Finding {
        match near {
            None => Finding::new(kind, start, end),
            Some(near) => {
                let text = Meant {
                    sign,
                    name: near.name,
                };
                Finding {
                    kind,
                    start,
                    end,
                    meant: Some(text),
                    edit: if near.is_only {
                        Some(Edit { start, end, text })
                    } else {
                        None
                    },
                }
            }
        }
    }
}
