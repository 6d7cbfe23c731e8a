//! Which rules a piece is taken by, and those of SVG and MathML (HTML Standard, section 13.2.6.5).
use crate::body::is_named;
use crate::builder::{Builder, InsertionMode, Next};
use crate::names::{Name, SVG_NAMES, Space, is_breakout, is_math_text, spelled};
use crate::pieces::{Piece, PieceKind};
use crate::tree::Node;

/// Whether HTML in an element of SVG or MathML is read as HTML.
fn is_point(node: &Node<'_>) -> bool {
    node.has_html || node.space == Space::Math && is_math_text(node.name)
}

impl<'a> Builder<'a> {
    /// Takes a piece in the current mode.
    pub(crate) fn step(&mut self, piece: &Piece<'a>, is_html: bool) -> Next {
        if !is_html && self.is_foreign(piece) {
            return self.in_foreign(piece);
        }
        match self.mode {
            InsertionMode::InBody => self.in_body(piece),
            InsertionMode::Initial | InsertionMode::BeforeHtml => self.before_html(piece),
            InsertionMode::BeforeHead => self.before_head(piece),
            InsertionMode::InHead => self.in_head(piece),
            InsertionMode::InHeadNoscript => self.in_head_noscript(piece),
            InsertionMode::AfterHead => self.after_head(piece),
            InsertionMode::Text => self.in_text(piece),
            InsertionMode::InTable => self.in_table(piece),
            InsertionMode::InTableText => self.in_table_text(piece),
            InsertionMode::InCaption => self.in_caption(piece),
            InsertionMode::InColumnGroup => self.in_column_group(piece),
            InsertionMode::InTableBody => self.in_table_body(piece),
            InsertionMode::InRow => self.in_row(piece),
            InsertionMode::InCell => self.in_cell(piece),
            InsertionMode::InTemplate => self.in_template(piece),
            InsertionMode::AfterBody | InsertionMode::AfterAfterBody => self.after_body(piece),
            InsertionMode::InFrameset => {
                self.in_frameset(piece);
                Next::Done
            }
            InsertionMode::AfterFrameset | InsertionMode::AfterAfterFrameset => {
                self.after_frameset(piece);
                Next::Done
            }
        }
    }

    /// Takes a piece in the mode "text".
    fn in_text(&mut self, piece: &Piece<'a>) -> Next {
        if piece.is_text() {
            self.add_text(piece);
            return Next::Done;
        }
        self.pop();
        self.mode = self.original;
        if piece.kind == PieceKind::Eof {
            Next::Again
        } else {
            Next::Done
        }
    }

    /// Whether the piece is taken by the rules of SVG and MathML.
    fn is_foreign(&self, piece: &Piece<'a>) -> bool {
        let node = self.adjusted_top();
        if node.space == Space::Html || self.open.is_empty() || piece.kind == PieceKind::Eof {
            return false;
        }
        match piece.kind {
            PieceKind::Text | PieceKind::Cdata => !is_point(&node),
            PieceKind::Start => {
                let is_glyph = matches!(piece.name, Name::Mglyph | Name::Malignmark);
                let is_svg = piece.name == Name::Svg && node.name == Name::AnnotationXml;
                let is_math_point = node.space == Space::Math
                    && (is_svg || is_math_text(node.name) && !is_glyph);
                !(node.has_html || is_math_point)
            }
            _ => true,
        }
    }

    /// Takes a piece by the rules of SVG and MathML.
    fn in_foreign(&mut self, piece: &Piece<'a>) -> Next {
        match piece.kind {
            PieceKind::Text | PieceKind::Cdata => {
                self.add_text(piece);
                self.note_shown(piece);
            }
            PieceKind::Comment => self.add_comment(piece),
            PieceKind::Start if is_breakout(piece.name) || is_html_font(piece) => {
                return self.leave_foreign();
            }
            PieceKind::Start => {
                let space = self.adjusted_top().space;
                self.insert_foreign(space, piece);
            }
            PieceKind::End if matches!(piece.name, Name::Br | Name::P) => {
                return self.leave_foreign();
            }
            PieceKind::End => return self.end_foreign(piece),
            PieceKind::Doctype | PieceKind::Eof => {}
        }
        Next::Done
    }

    /// Ends SVG or MathML, and takes the piece as HTML.
    fn leave_foreign(&mut self) -> Next {
        for _ in 0..self.open.len() {
            let node = self.top();
            if node.space == Space::Html || is_point(&node) {
                break;
            }
            self.pop();
        }
        Next::AsHtml
    }

    /// Takes the start tag of a drawing or a formula in a body.
    pub(crate) fn start_foreign(&mut self, piece: &Piece<'a>) {
        self.reconstruct();
        let space = if piece.name == Name::Svg {
            Space::Svg
        } else {
            Space::Math
        };
        self.insert_foreign(space, piece);
    }

    /// Adds and opens an element of SVG or MathML, and ends one that a `/` ends.
    fn insert_foreign(&mut self, space: Space, piece: &Piece<'a>) {
        self.insert_in(space, piece);
        if piece.is_closed() {
            self.pop();
        }
    }

    /// Takes an end tag in SVG or MathML.
    fn end_foreign(&mut self, piece: &Piece<'a>) -> Next {
        let mut steps: usize = 0;
        let mut found = 0;
        let mut next = Next::Done;
        for index in (1..self.open.len()).rev() {
            steps = steps.saturating_add(1);
            let node = self.tree.node(self.open_id(index));
            if node.space == Space::Html {
                // Some browsers give the name its capitals first, and find no such element.
                self.is_doubtful |= spelled(SVG_NAMES, piece.word).is_some()
                    && self.may_have(piece);
                next = Next::AsHtml;
                break;
            }
            if is_named(piece, node.name, node.word) {
                found = index;
                break;
            }
        }
        self.spend(steps);
        if found > 0 {
            for _ in found..self.open.len() {
                self.pop();
            }
        }
        next
    }
}

/// Whether the start tag is that of a `font` of HTML.
fn is_html_font(piece: &Piece<'_>) -> bool {
    piece.name == Name::Font
        && (piece.attribute(b"color").is_some()
            || piece.attribute(b"face").is_some()
            || piece.attribute(b"size").is_some())
}
