//! The insertion modes before the body, and after it.
use crate::builder::{Builder, InsertionMode, Next};
use crate::names::Name;
use crate::page::NodeKind;
use crate::pieces::{Piece, PieceKind};
use crate::quirks::is_quirky;
use crate::tree::DOCUMENT;

/// Whether the piece is an end tag that is ignored before the body.
fn is_ignored_end(piece: &Piece<'_>) -> bool {
    piece.kind == PieceKind::End
        && !matches!(piece.name, Name::Head | Name::Body | Name::Html | Name::Br)
}

impl<'a> Builder<'a> {
    /// Takes the piece again in another mode, which stays.
    pub(crate) fn go(&mut self, mode: InsertionMode) -> Next {
        self.mode = mode;
        Next::Again
    }

    /// Takes a piece in the mode "initial" or "before html".
    pub(crate) fn before_html(&mut self, piece: &Piece<'a>) -> Next {
        let is_initial = self.mode == InsertionMode::Initial;
        match piece.kind {
            PieceKind::Comment => self.add_piece(DOCUMENT, NodeKind::Comment, piece),
            PieceKind::Text if piece.is_blank() => {}
            PieceKind::Doctype if is_initial => {
                self.add_piece(DOCUMENT, NodeKind::Doctype, piece);
                self.is_quirky = is_quirky(piece.word);
                self.mode = InsertionMode::BeforeHtml;
            }
            PieceKind::Doctype => {}
            _ if is_initial => return self.go(InsertionMode::BeforeHtml),
            PieceKind::End if is_ignored_end(piece) => {}
            PieceKind::Start if piece.name == Name::Html => {
                self.root = self.insert(piece);
                self.mode = InsertionMode::BeforeHead;
            }
            _ => {
                self.root = self.insert_implied(Name::Html);
                return self.go(InsertionMode::BeforeHead);
            }
        }
        Next::Done
    }

    /// Takes what each mode takes in the same way: white space, comments, document types and an
    /// `html` start tag. Returns whether it is one of these.
    fn take_common(&mut self, piece: &Piece<'a>) -> bool {
        match piece.kind {
            PieceKind::Text | PieceKind::Cdata if piece.is_blank() => self.add_text(piece),
            PieceKind::Comment => self.add_comment(piece),
            PieceKind::Doctype => {}
            PieceKind::Start if piece.name == Name::Html => self.start_html(piece),
            _ => return false,
        }
        true
    }

    /// Takes a piece in the mode "before head".
    pub(crate) fn before_head(&mut self, piece: &Piece<'a>) -> Next {
        if piece.is_blank() || is_ignored_end(piece) {
            return Next::Done;
        }
        if self.take_common(piece) {
            return Next::Done;
        }
        if piece.starts(Name::Head) {
            self.head = self.insert(piece);
            self.mode = InsertionMode::InHead;
            return Next::Done;
        }
        self.head = self.insert_implied(Name::Head);
        self.go(InsertionMode::InHead)
    }

    /// Takes a piece in the mode "in head".
    pub(crate) fn in_head(&mut self, piece: &Piece<'a>) -> Next {
        if self.take_common(piece) {
            return Next::Done;
        }
        if piece.kind == PieceKind::Start && self.starts_in_head(piece) {
            return Next::Done;
        }
        if piece.ends(Name::Template) {
            self.end_template();
            return Next::Done;
        }
        if piece.starts(Name::Head) || is_ignored_end(piece) {
            return Next::Done;
        }
        self.pop();
        self.mode = InsertionMode::AfterHead;
        if piece.ends(Name::Head) {
            Next::Done
        } else {
            Next::Again
        }
    }

    /// Takes a start tag that may be in a head. Returns whether it is one.
    pub(crate) fn starts_in_head(&mut self, piece: &Piece<'a>) -> bool {
        match piece.name {
            Name::Base | Name::Basefont | Name::Bgsound | Name::Link | Name::Meta => {
                self.insert_void(piece);
            }
            Name::Noscript if !self.has_scripts => {
                self.insert(piece);
                self.mode = InsertionMode::InHeadNoscript;
            }
            Name::Title | Name::Noframes | Name::Style | Name::Script | Name::Noscript => {
                self.insert_raw(piece);
            }
            Name::Template => {
                self.insert(piece);
                self.start_template();
            }
            _ => return false,
        }
        true
    }

    /// Takes a piece in the mode "in head noscript".
    pub(crate) fn in_head_noscript(&mut self, piece: &Piece<'a>) -> Next {
        if self.take_common(piece) {
            return Next::Done;
        }
        let is_ignored = match piece.kind {
            PieceKind::Start => match piece.name {
                Name::Basefont
                | Name::Bgsound
                | Name::Link
                | Name::Meta
                | Name::Noframes
                | Name::Style => return self.in_head(piece),
                _ => matches!(piece.name, Name::Head | Name::Noscript),
            },
            PieceKind::End => !matches!(piece.name, Name::Noscript | Name::Br),
            _ => false,
        };
        if is_ignored {
            return Next::Done;
        }
        self.pop();
        self.mode = InsertionMode::InHead;
        if piece.ends(Name::Noscript) {
            Next::Done
        } else {
            Next::Again
        }
    }

    /// Takes a piece in the mode "after head".
    pub(crate) fn after_head(&mut self, piece: &Piece<'a>) -> Next {
        if self.take_common(piece) {
            return Next::Done;
        }
        match piece.kind {
            PieceKind::Start => match piece.name {
                Name::Body => {
                    self.insert(piece);
                    self.may_be_frames = false;
                    self.mode = InsertionMode::InBody;
                    return Next::Done;
                }
                Name::Frameset => {
                    self.insert(piece);
                    self.mode = InsertionMode::InFrameset;
                    return Next::Done;
                }
                Name::Head => return Next::Done,
                _ if self.starts_after_head(piece) => return Next::Done,
                _ => {}
            },
            PieceKind::End if piece.name == Name::Template => {
                self.end_template();
                return Next::Done;
            }
            PieceKind::End if piece.name == Name::Head || is_ignored_end(piece) => {
                return Next::Done;
            }
            _ => {}
        }
        self.insert_implied(Name::Body);
        self.go(InsertionMode::InBody)
    }

    /// Puts an element of a head after the head into it. Returns whether the start tag is of one.
    fn starts_after_head(&mut self, piece: &Piece<'a>) -> bool {
        if piece.name == Name::Noscript || !is_head_part(piece.name) {
            return false;
        }
        let head = self.tree.node(self.head);
        self.push(self.head);
        self.starts_in_head(piece);
        self.remove(self.head);
        if let Some(node) = self.tree.nodes.get_mut(self.head as usize) {
            node.start = head.start;
            node.end = head.end;
        }
        true
    }

    /// Takes a piece in the modes "after body" and "after after body".
    pub(crate) fn after_body(&mut self, piece: &Piece<'a>) -> Next {
        let is_first = self.mode == InsertionMode::AfterBody;
        match piece.kind {
            PieceKind::Comment => {
                let parent = if is_first { self.root } else { DOCUMENT };
                self.add_piece(parent, NodeKind::Comment, piece);
            }
            PieceKind::Text if piece.is_blank() => self.text_in_body(piece),
            PieceKind::Doctype | PieceKind::Eof => {}
            PieceKind::Start if piece.name == Name::Html => self.start_html(piece),
            PieceKind::End if is_first && piece.name == Name::Html => {
                if self.context.is_none() {
                    self.mode = InsertionMode::AfterAfterBody;
                }
            }
            _ => return self.go(InsertionMode::InBody),
        }
        Next::Done
    }

    /// Takes a piece in the mode "in frameset".
    pub(crate) fn in_frameset(&mut self, piece: &Piece<'a>) {
        if self.take_common(piece) {
            return;
        }
        if piece.starts(Name::Frameset) {
            self.insert(piece);
        } else if piece.starts(Name::Frame) {
            self.insert_void(piece);
        } else if piece.starts(Name::Noframes) {
            self.insert_raw(piece);
        } else if piece.ends(Name::Frameset) && self.open.len() > 1 {
            self.pop();
            if self.context.is_none() && !self.top_is(Name::Frameset) {
                self.mode = InsertionMode::AfterFrameset;
            }
        }
    }

    /// Takes a piece in the modes "after frameset" and "after after frameset".
    pub(crate) fn after_frameset(&mut self, piece: &Piece<'a>) {
        let is_first = self.mode == InsertionMode::AfterFrameset;
        if piece.kind == PieceKind::Comment && !is_first {
            self.add_piece(DOCUMENT, NodeKind::Comment, piece);
        } else if self.take_common(piece) {
            return;
        } else if piece.starts(Name::Noframes) {
            self.insert_raw(piece);
        } else if is_first && piece.ends(Name::Html) {
            self.mode = InsertionMode::AfterAfterFrameset;
        }
    }
}

/// Whether a start tag with the name may be in a head.
pub(crate) fn is_head_part(name: Name) -> bool {
    matches!(
        name,
        Name::Base
            | Name::Basefont
            | Name::Bgsound
            | Name::Link
            | Name::Meta
            | Name::Noframes
            | Name::Script
            | Name::Style
            | Name::Template
            | Name::Title
    )
}
