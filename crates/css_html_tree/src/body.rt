//! The insertion mode "in body".
use crate::builder::{Builder, InsertionMode, Next};
use crate::names::{Name, Scope, Space, is_heading, is_special};
use crate::pieces::{Piece, PieceKind};
use crate::tree::NONE;

/// The names of headings.
const HEADINGS: [Name; 6] = [Name::H1, Name::H2, Name::H3, Name::H4, Name::H5, Name::H6];

/// Whether an element with the name is a block that ends a paragraph and ends by its end tag.
fn is_block(name: Name) -> bool {
    matches!(
        name,
        Name::Address
            | Name::Article
            | Name::Aside
            | Name::Blockquote
            | Name::Center
            | Name::Details
            | Name::Dialog
            | Name::Dir
            | Name::Div
            | Name::Dl
            | Name::Fieldset
            | Name::Figcaption
            | Name::Figure
            | Name::Footer
            | Name::Header
            | Name::Hgroup
            | Name::Main
            | Name::Menu
            | Name::Nav
            | Name::Ol
            | Name::Search
            | Name::Section
            | Name::Summary
            | Name::Ul
    )
}

/// Whether the name is that of a formatting element.
fn is_formatting(name: Name) -> bool {
    matches!(
        name,
        Name::A
            | Name::B
            | Name::Big
            | Name::Code
            | Name::Em
            | Name::Font
            | Name::I
            | Name::Nobr
            | Name::S
            | Name::Small
            | Name::Strike
            | Name::Strong
            | Name::Tt
            | Name::U
    )
}

impl<'a> Builder<'a> {
    /// Takes a piece in the mode "in body".
    pub(crate) fn in_body(&mut self, piece: &Piece<'a>) -> Next {
        match piece.kind {
            PieceKind::Text | PieceKind::Cdata => self.text_in_body(piece),
            PieceKind::Start => {
                if !self.start_often(piece) && !self.start_seldom(piece) {
                    self.reconstruct();
                    self.insert(piece);
                }
            }
            PieceKind::End => return self.end_in_body(piece),
            PieceKind::Comment => self.add_comment(piece),
            PieceKind::Doctype => {}
            PieceKind::Eof => return self.end_templates(),
        }
        Next::Done
    }

    /// Takes a text in a body.
    pub(crate) fn text_in_body(&mut self, piece: &Piece<'a>) {
        if matches!(piece.word, [0, ..]) && piece.word.iter().all(|byte| *byte == 0) {
            return;
        }
        self.reconstruct();
        self.add_text(piece);
        self.note_shown(piece);
    }

    /// Notes that a text keeps a `frameset` from being one.
    pub(crate) fn note_shown(&mut self, piece: &Piece<'a>) {
        if self.may_be_frames && piece.is_shown() {
            self.may_be_frames = false;
        }
    }

    /// Takes a start tag that is frequent in a body. Returns whether it is one.
    fn start_often(&mut self, piece: &Piece<'a>) -> bool {
        match piece.name {
            Name::P => {
                self.close_p();
                self.insert(piece);
            }
            name if is_block(name) => {
                self.close_p();
                self.insert(piece);
            }
            Name::A => self.start_link(piece),
            Name::Nobr => self.start_nobr(piece),
            name if is_formatting(name) => self.start_formatting(piece),
            name if is_heading(name) => {
                self.close_p();
                if self.top().space == Space::Html && is_heading(self.top().name) {
                    self.pop();
                }
                self.insert(piece);
            }
            Name::Li | Name::Dd | Name::Dt => self.start_item(piece),
            Name::Table => {
                if !self.is_quirky {
                    self.close_p();
                }
                self.insert(piece);
                self.may_be_frames = false;
                self.mode = InsertionMode::InTable;
            }
            Name::Area | Name::Br | Name::Embed | Name::Img | Name::Keygen | Name::Wbr => {
                self.start_void(piece);
            }
            _ => return false,
        }
        true
    }

    /// Takes a start tag of a body that is less frequent. Returns whether it has rules.
    fn start_seldom(&mut self, piece: &Piece<'a>) -> bool {
        match piece.name {
            Name::Html => self.start_html(piece),
            Name::Body => self.start_body(piece),
            Name::Frameset => self.start_frameset(piece),
            Name::Pre | Name::Listing => self.start_pre(piece),
            Name::Form => self.start_form(piece),
            Name::Plaintext => self.start_plaintext(piece),
            Name::Button => self.start_button(piece),
            Name::Applet | Name::Marquee | Name::Object => {
                self.reconstruct();
                self.insert(piece);
                self.push_marker();
                self.may_be_frames = false;
            }
            Name::Param | Name::Source | Name::Track => self.insert_void(piece),
            Name::Input | Name::Hr | Name::Select | Name::Option | Name::Optgroup => {
                self.start_control(piece);
            }
            Name::Image => {
                let mut image = *piece;
                image.name = Name::Img;
                self.start_void(&image);
            }
            Name::Textarea | Name::Iframe | Name::Noembed | Name::Xmp => self.start_raw(piece),
            Name::Noscript if self.has_scripts => self.insert_raw(piece),
            Name::Noscript => return false,
            Name::Rb | Name::Rtc | Name::Rp | Name::Rt => self.start_ruby(piece),
            Name::Math | Name::Svg => self.start_foreign(piece),
            Name::Caption | Name::Col | Name::Colgroup | Name::Frame | Name::Head => {}
            Name::Tbody | Name::Td | Name::Tfoot | Name::Th | Name::Thead | Name::Tr => {}
            _ => return self.starts_in_head(piece),
        }
        true
    }

    /// Takes the start tag of a block whose first line feed does not count.
    fn start_pre(&mut self, piece: &Piece<'a>) {
        self.close_p();
        self.insert(piece);
        self.skips_newline = true;
        self.may_be_frames = false;
    }

    /// Takes the start tag of a text that goes on to the end of the page.
    fn start_plaintext(&mut self, piece: &Piece<'a>) {
        self.close_p();
        self.insert(piece);
        self.is_plain = true;
    }

    /// Takes a second start tag of the root.
    pub(crate) fn start_html(&mut self, piece: &Piece<'a>) {
        if !self.has_template() && self.root != NONE {
            self.merge(self.root, piece);
        }
    }

    /// Returns the `body` element, if it is the second open one.
    fn body(&self) -> Option<u32> {
        let id = *self.open.get(1)?;
        if self.tree.node(id).name == Name::Body {
            Some(id)
        } else {
            None
        }
    }

    /// Takes a second start tag of the body.
    fn start_body(&mut self, piece: &Piece<'a>) {
        if let Some(body) = self.body() {
            if !self.has_template() {
                self.may_be_frames = false;
                self.merge(body, piece);
            }
        }
    }

    /// Puts a frameset in place of the body, if nothing is shown in that.
    fn start_frameset(&mut self, piece: &Piece<'a>) {
        if let Some(body) = self.body() {
            if self.may_be_frames {
                self.tree.detach(body);
                for _ in 1..self.open.len() {
                    self.pop();
                }
                self.insert(piece);
                self.mode = InsertionMode::InFrameset;
            }
        }
    }

    /// Takes the start tag of a form.
    fn start_form(&mut self, piece: &Piece<'a>) {
        let has_template = self.has_template();
        if self.form == NONE || has_template {
            self.close_p();
            let id = self.insert(piece);
            if !has_template {
                self.form = id;
            }
        }
    }

    /// Takes the start tag of an item of a list, which ends the item before it.
    fn start_item(&mut self, piece: &Piece<'a>) {
        self.may_be_frames = false;
        let names = if piece.name == Name::Li {
            [Name::Li, Name::Li]
        } else {
            [Name::Dd, Name::Dt]
        };
        if names.iter().any(|name| self.count_of(*name) > 0) {
            let mut found = Name::Other;
            let mut steps: usize = 0;
            for id in self.open.iter().rev() {
                steps = steps.saturating_add(1);
                let node = self.tree.node(*id);
                if node.space == Space::Html && names.contains(&node.name) {
                    found = node.name;
                    break;
                }
                let is_block = matches!(node.name, Name::Address | Name::Div | Name::P);
                if is_special(node.space, node.name) && !(is_block && node.space == Space::Html) {
                    break;
                }
            }
            self.spend(steps);
            if found != Name::Other {
                self.end_implied(found);
                self.pop_until(&[found]);
            }
        }
        self.close_p();
        self.insert(piece);
    }

    /// Takes the start tag of a button.
    fn start_button(&mut self, piece: &Piece<'a>) {
        if self.has(Name::Button, Scope::Default) {
            self.end_implied(Name::Other);
            self.pop_until(&[Name::Button]);
        }
        self.reconstruct();
        self.insert(piece);
        self.may_be_frames = false;
    }

    /// Takes the start tag of a link, which ends the link before it.
    fn start_link(&mut self, piece: &Piece<'a>) {
        let id = self.formatting_of(Name::A);
        if id != NONE {
            self.adopt(Name::A);
            self.forget(id);
            self.remove(id);
        }
        self.start_formatting(piece);
    }

    /// Takes the start tag of a formatting element.
    fn start_formatting(&mut self, piece: &Piece<'a>) {
        self.reconstruct();
        let id = self.insert(piece);
        self.push_formatting(id);
    }

    /// Takes the start tag of a `nobr`, which ends the one before it.
    fn start_nobr(&mut self, piece: &Piece<'a>) {
        self.reconstruct();
        if self.has(Name::Nobr, Scope::Default) {
            self.adopt(Name::Nobr);
            self.reconstruct();
        }
        self.start_formatting(piece);
    }

    /// Takes the start tag of an element without content.
    fn start_void(&mut self, piece: &Piece<'a>) {
        self.reconstruct();
        self.insert_void(piece);
        self.may_be_frames = false;
    }

    /// Takes a start tag that has rules of its own in a `select`.
    fn start_control(&mut self, piece: &Piece<'a>) {
        let is_in_select = self.has(Name::Select, Scope::Default);
        match piece.name {
            Name::Select if self.is_of_select() => {}
            Name::Hr => {
                self.close_p();
                if is_in_select {
                    self.end_implied(Name::Other);
                }
                self.insert_void(piece);
                self.may_be_frames = false;
            }
            Name::Select if is_in_select => self.pop_until(&[Name::Select]),
            Name::Select => {
                self.reconstruct();
                self.insert(piece);
                self.may_be_frames = false;
            }
            Name::Input => {
                if is_in_select {
                    self.pop_until(&[Name::Select]);
                }
                self.reconstruct();
                self.insert_void(piece);
                self.may_be_frames = self.may_be_frames && is_hidden_input(piece);
            }
            _ => {
                if is_in_select {
                    let is_option = piece.name == Name::Option;
                    self.end_implied(if is_option {
                        Name::Optgroup
                    } else {
                        Name::Other
                    });
                } else if self.top_is(Name::Option) {
                    self.pop();
                }
                self.reconstruct();
                self.insert(piece);
            }
        }
    }

    /// Whether this is a fragment of a `select`.
    fn is_of_select(&self) -> bool {
        match &self.context {
            Some(context) => context.space == Space::Html && context.name == Name::Select,
            None => false,
        }
    }

    /// Takes the start tag of an element whose content is text.
    fn start_raw(&mut self, piece: &Piece<'a>) {
        if piece.name == Name::Xmp {
            self.close_p();
            self.reconstruct();
        }
        self.insert_raw(piece);
        self.skips_newline = piece.name == Name::Textarea;
        self.may_be_frames = self.may_be_frames && piece.name == Name::Noembed;
    }

    /// Takes the start tag of a part of a `ruby`.
    fn start_ruby(&mut self, piece: &Piece<'a>) {
        if self.has(Name::Ruby, Scope::Default) {
            let is_text = matches!(piece.name, Name::Rp | Name::Rt);
            self.end_implied(if is_text { Name::Rtc } else { Name::Other });
        }
        self.insert(piece);
    }

    /// Takes an end tag in a body.
    fn end_in_body(&mut self, piece: &Piece<'a>) -> Next {
        match piece.name {
            Name::P => self.end_p(),
            name if is_formatting(name) => {
                if self.adopt(name) {
                    self.end_other(piece);
                }
            }
            Name::Li | Name::Dd | Name::Dt => {
                let is_item = piece.name == Name::Li;
                if self.has(
                    piece.name,
                    if is_item { Scope::List } else { Scope::Default },
                ) {
                    self.end_implied(piece.name);
                    self.pop_until(&[piece.name]);
                }
            }
            Name::Form => self.end_form(),
            name if is_heading(name) => {
                if self.has_any(&HEADINGS, Scope::Default) {
                    self.end_implied(Name::Other);
                    self.pop_until(&HEADINGS);
                }
            }
            Name::Body | Name::Html => {
                if self.has(Name::Body, Scope::Default) {
                    self.mode = InsertionMode::AfterBody;
                    return if piece.name == Name::Body {
                        Next::Done
                    } else {
                        Next::Again
                    };
                }
            }
            Name::Br => {
                self.reconstruct();
                self.insert_implied(Name::Br);
                self.pop();
                self.may_be_frames = false;
            }
            Name::Template => self.end_template(),
            _ => self.end_block(piece),
        }
        Next::Done
    }

    /// Takes the end tag of a block, or of an element without rules.
    fn end_block(&mut self, piece: &Piece<'a>) {
        let is_object = matches!(piece.name, Name::Applet | Name::Marquee | Name::Object);
        let is_other = matches!(
            piece.name,
            Name::Button | Name::Listing | Name::Pre | Name::Select
        );
        if !is_object && !is_other && !is_block(piece.name) {
            self.end_other(piece);
        } else if self.has(piece.name, Scope::Default) {
            self.end_implied(Name::Other);
            self.pop_until(&[piece.name]);
            if is_object {
                self.formatting.clear();
            }
        }
    }

    /// Takes the end tag of an element without rules.
    fn end_other(&mut self, piece: &Piece<'a>) {
        if !self.may_have(piece) {
            return;
        }
        let mut steps: usize = 0;
        let (mut found, mut is_doubtful) = (false, false);
        for id in self.open.iter().rev() {
            let node = self.tree.node(*id);
            if node.space == Space::Html && is_named(piece, node.name, node.word) {
                found = true;
                break;
            }
            if is_special(node.space, node.name) {
                // Not all browsers know this one.
                is_doubtful = node.name == Name::Search;
                break;
            }
            steps = steps.saturating_add(1);
        }
        self.is_doubtful |= is_doubtful;
        self.spend(steps);
        if found {
            self.end_implied(piece.name);
            for _ in 1..self.open.len() {
                let node = self.top();
                self.pop();
                if node.space == Space::Html && is_named(piece, node.name, node.word) {
                    break;
                }
            }
        }
    }

    /// Takes the end tag of a paragraph, of which there is an empty one without a start tag.
    fn end_p(&mut self) {
        if !self.has(Name::P, Scope::Button) {
            self.insert_implied(Name::P);
        }
        self.close_p();
    }

    /// Takes the end tag of a form.
    fn end_form(&mut self) {
        if self.has_template() {
            if self.has(Name::Form, Scope::Default) {
                self.end_implied(Name::Other);
                self.pop_until(&[Name::Form]);
            }
            return;
        }
        let form = self.form;
        self.form = NONE;
        if self.tree.node(form).is_open && self.is_in_scope(form) {
            self.end_implied(Name::Other);
            self.remove(form);
        }
    }
}

/// Whether a tag has the name.
pub(crate) fn is_named(piece: &Piece<'_>, name: Name, word: &[u8]) -> bool {
    piece.name == name && (name != Name::Other || piece.word.eq_ignore_ascii_case(word))
}

/// Whether the start tag of an `input` is that of a hidden one.
pub(crate) fn is_hidden_input(piece: &Piece<'_>) -> bool {
    match piece.attribute(b"type") {
        Some(value) => value.eq_ignore_ascii_case(b"hidden"),
        None => false,
    }
}
