//! Reads a page: its tokens, and the tree that a browser makes of them.
ghost use Rattle.std.specs.Prelude.{◌≡◌, IfOk, OnOk, map, vec_len};
ghost use Rattle.css_html.specs.Views.{token_of};
ghost use Rattle.css_html_tree.specs.Reads.{AreStartTags, with_start, is_start as is_start_kind};
ghost use Rattle.css_html_tree.specs.Rows.{AreRows};

use crate::builder::{Builder, COUNTS, InsertionMode, Next, has_html};
use crate::formatting::Formatting;
use crate::names::{Name, Space, name_of};
use crate::page::{Context, Fault, NodeKind, Options, Page};
use crate::pieces::{Piece, PieceKind, part};
use crate::tree::{DOCUMENT, NONE, Node, Tree, new_node};
use css_html::modes::{Mode, RawName};
use css_html::tokenizer::{Token, TokenKind, read_next};
use std::alloc::Global;

/// The piece that ends a page.
fn end_piece<'a>(end: usize) -> Piece<'a> {
    Piece {
        kind: PieceKind::Eof,
        name: Name::Other,
        tag: NONE,
        start: end,
        end,
        word: &[],
        attributes: &[],
    }
}

/// Returns a token as tree construction takes it, if it takes it.
fn piece_of<'a>(text: &'a [u8], token: &Token<'a>, tag: u32) -> Option<Piece<'a>> {
    let (from, rest) = match token.kind {
        TokenKind::Cdata => (token.inside, token.inside_end),
        _ => (token.from, token.rest),
    };
    let start = text.len().saturating_sub(from.len());
    let end = text.len().saturating_sub(rest.len());
    let inside = part(token.inside, token.inside_end);
    let all = part(token.from, token.rest);
    let (kind, word) = match token.kind {
        TokenKind::Text => (PieceKind::Text, inside),
        TokenKind::Cdata => (PieceKind::Cdata, inside),
        TokenKind::StartTag => (PieceKind::Start, inside),
        TokenKind::EndTag => (PieceKind::End, inside),
        TokenKind::Comment => (PieceKind::Comment, all),
        TokenKind::Doctype => (PieceKind::Doctype, all),
        TokenKind::Nothing | TokenKind::Cut => return None,
    };
    let is_tag = matches!(kind, PieceKind::Start | PieceKind::End);
    Some(Piece {
        kind,
        name: if is_tag { name_of(inside) } else { Name::Other },
        tag: if kind == PieceKind::Start { tag } else { NONE },
        start,
        end,
        word,
        attributes: if is_tag {
            part(token.inside_end, token.rest)
        } else {
            &[]
        },
    })
}

/// Whether the end of the page cuts a token off that begins with `<`.
fn is_unclosed(token: &Token<'_>) -> bool {
    match token.kind {
        TokenKind::Cut => true,
        TokenKind::Comment | TokenKind::Doctype => {
            token.inside_end.is_empty() || !part(token.from, token.rest).ends_with(b">")
        }
        _ => false,
    }
}

/// Returns the context of a fragment as a node.
fn context_node<'a>(context: &Context<'a>) -> Node<'a> {
    let mut node = new_node(NodeKind::Element, 0, 0);
    node.space = context.space;
    node.word = context.name;
    node.name = name_of(context.name);
    node.attributes = context.attributes;
    node.has_html = has_html(node.space, node.name, node.attributes);
    node
}

impl<'a> Builder<'a> {
    /// Returns the state before a page of this length.
    fn new(alloc: Global, length: usize, options: &Options<'a>) -> Result<Builder<'a>, Fault> {
        Ok(Builder {
            tree: Tree::new(alloc)?,
            open: Vec::new(alloc),
            counts: Vec::from_elem(alloc, 0, COUNTS)?,
            formatting: Formatting::new(alloc)?,
            templates: Vec::new(alloc),
            pending: Vec::new(alloc),
            merged: Vec::new(alloc),
            mode: InsertionMode::Initial,
            original: InsertionMode::InBody,
            context: None,
            root: NONE,
            head: NONE,
            form: NONE,
            is_quirky: true,
            is_doubtful: false,
            head_end: None,
            unclosed: length,
            has_scripts: options.has_scripts,
            may_be_frames: true,
            is_fostering: false,
            skips_newline: false,
            is_plain: false,
            steps: (length / 8).saturating_add(1000).saturating_mul(100),
            fault: None,
            piece: end_piece(0),
        })
    }

    /// Begins a fragment.
    fn begin_fragment(&mut self, context: Node<'a>) {
        self.is_quirky = false;
        self.root = self.insert_implied(Name::Html);
        if context.space == Space::Html {
            match context.name {
                Name::Template => {
                    if self.templates.push(InsertionMode::InTemplate).is_err() {
                        self.fault = Some(Fault::Memory);
                    }
                }
                Name::Form => self.form = DOCUMENT,
                Name::Noscript if self.has_scripts => self.is_plain = true,
                Name::Title
                | Name::Textarea
                | Name::Style
                | Name::Script
                | Name::Xmp
                | Name::Iframe
                | Name::Noembed
                | Name::Noframes
                | Name::Plaintext => {
                    self.is_plain = true;
                }
                _ => {}
            }
        }
        self.context = Some(context);
        self.reset_mode();
    }

    /// Returns how the next token is read.
    fn reader_mode(&self) -> Mode {
        if self.is_plain {
            return Mode::Plaintext;
        }
        if self.mode != InsertionMode::Text {
            let is_html = self.adjusted_top().space == Space::Html;
            return if is_html { Mode::Data } else { Mode::Foreign };
        }
        match self.top().name {
            Name::Title => Mode::Raw(RawName::Title),
            Name::Textarea => Mode::Raw(RawName::Textarea),
            Name::Style => Mode::Raw(RawName::Style),
            Name::Xmp => Mode::Raw(RawName::Xmp),
            Name::Iframe => Mode::Raw(RawName::Iframe),
            Name::Noembed => Mode::Raw(RawName::Noembed),
            Name::Noframes => Mode::Raw(RawName::Noframes),
            Name::Noscript => Mode::Raw(RawName::Noscript),
            Name::Script => Mode::Script,
            _ => Mode::Data,
        }
    }

    /// Whether the white space at the start of a text is taken by itself in the mode.
    fn splits(&self) -> bool {
        !matches!(
            self.mode,
            InsertionMode::InBody
                | InsertionMode::InCell
                | InsertionMode::InCaption
                | InsertionMode::InTemplate
                | InsertionMode::Text
                | InsertionMode::InTable
                | InsertionMode::InTableText
                | InsertionMode::InTableBody
                | InsertionMode::InRow
        )
    }

    /// Takes a token of a page. The number is that of a start tag.
    fn take_token(&mut self, text: &'a [u8], token: &Token<'a>, tag: u32) {
        if token.kind == TokenKind::StartTag && tag == NONE {
            self.fault = Some(Fault::TooLong);
        }
        if is_unclosed(token) {
            self.unclosed = text.len().saturating_sub(token.from.len());
        }
        if let Some(piece) = piece_of(text, token, tag) {
            self.take(piece);
        }
    }

    /// Ends the page. Returns what is wrong with it.
    fn finish(&mut self, length: usize) -> Option<Fault> {
        self.take(end_piece(length));
        for _ in 0..self.open.len() {
            self.pop();
        }
        self.fault
    }

    /// Takes a token, by parts if the mode asks for it.
    fn take(&mut self, piece: Piece<'a>) {
        let mut rest = piece;
        if self.skips_newline {
            self.skips_newline = false;
            if rest.is_text() {
                rest = rest.after_newline();
                if rest.word.is_empty() {
                    return;
                }
            }
        }
        for _ in 0..piece.word.len() {
            if !rest.is_text() || !self.splits() {
                break;
            }
            let blank = rest.count(true);
            let drops_others = matches!(
                self.mode,
                InsertionMode::InColumnGroup
                    | InsertionMode::InFrameset
                    | InsertionMode::AfterFrameset
                    | InsertionMode::AfterAfterFrameset
            );
            let count = match blank {
                0 if drops_others => rest.count(false),
                0 => rest.word.len(),
                blank => blank,
            };
            let (first, after) = rest.split(count);
            rest = after;
            self.take_part(&first);
            if rest.word.is_empty() {
                return;
            }
        }
        self.take_part(&rest);
    }

    /// Takes a token or a part of it, by one mode after another.
    fn take_part(&mut self, piece: &Piece<'a>) {
        self.piece = *piece;
        let mut next = Next::Again;
        for _ in 0..self.open.len().saturating_add(32) {
            next = self.step(piece, next == Next::AsHtml);
            if next == Next::Done {
                break;
            }
        }
    }
}

/// Whether tokens of the kind are start tags.
fn is_start(kind: TokenKind) -> bool
    ensures { result ≡ is_start_kind kind }
{
    matches!(kind, TokenKind::StartTag)
}

/// Adds a token to the tags if it is a start tag.
fn note_tag<'a>(tags: &mut Vec<Token<'a>>, token: &Token<'a>) -> Result<(), Fault>
    ensures { OnOk result (map token_of tags.new.items
        ≡ with_start (map token_of tags.old.items) (token_of token.now)) }
{
    if is_start(token.kind) {
        tags.push(*token)?;
    }
    Ok(())
}

/// Reads the tokens of a page and builds its tree. Returns the start tags.
fn read_tags<'a>(
    alloc: Global,
    text: &'a [u8],
    builder: &mut Builder<'a>,
) -> Result<Vec<Token<'a>>, Fault>
    ensures { IfOk result (λ tags. AreStartTags text.now (map token_of tags.items)) }
{
    let mut tags: Vec<Token<'a>> = Vec::new(alloc);
    let mut rest = text;
    'tokens: for _ in 0..text.len() {
        let mode = builder.reader_mode();
        let Some(token) = read_next(mode, rest) else {
            break;
        };
        let tag = number_of_tag(tags.len());
        note_tag(&mut tags, &token)?;
        builder.take_token(text, &token, tag);
        if let Some(fault) = builder.fault {
            return Err(fault);
        }
        rest = token.rest;
    }
    Ok(tags)
}

/// Returns the number of a start tag, or `NONE` if it is too great.
fn number_of_tag(index: usize) -> u32 {
    u32::try_from(index).unwrap_or(NONE)
}

/// Reads a page, or the content of an element.
pub fn read_page<'a>(
    alloc: Global,
    text: &'a [u8],
    options: &Options<'a>,
) -> Result<Page<'a>, Fault>
    ensures tags { IfOk result (λ page. AreStartTags text.now (map token_of page.tags.items)) }
    ensures rows { IfOk result (λ page. AreRows (vec_len page.tags) page.rows.items) }
{
    let mut builder = Builder::new(alloc, text.len(), options)?;
    if let Some(context) = &options.context {
        builder.begin_fragment(context_node(context));
    }
    let tags = read_tags(alloc, text, &mut builder)?;
    if let Some(fault) = builder.finish(text.len()) {
        return Err(fault);
    }
    let outermost = if builder.context.is_some() {
        builder.root
    } else {
        DOCUMENT
    };
    let mut places = Vec::from_elem(alloc, usize::MAX, builder.tree.nodes.len())?;
    let rows = builder
        .tree
        .rows(alloc, outermost, tags.len(), &mut places)?;
    let merged = merged_rows(alloc, builder.merged.as_slice(), places.as_slice())?;
    Ok(Page {
        tags,
        rows,
        merged,
        is_quirky: builder.is_quirky,
        is_doubtful: builder.is_doubtful,
        head_end: builder.head_end,
    })
}

/// Returns the rows of elements and the start tags whose attributes are added to them.
fn merged_rows(
    alloc: Global,
    merged: &[(u32, u32)],
    places: &[usize],
) -> Result<Vec<(usize, usize)>, Fault> {
    let mut found = Vec::new(alloc);
    for (id, tag) in merged {
        match places.get(*id as usize) {
            Some(row) if *row < usize::MAX => found.push((*row, *tag as usize))?,
            _ => {}
        }
    }
    Ok(found)
}
