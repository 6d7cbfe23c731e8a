//! The insertion modes of tables and templates.
use crate::before::is_head_part;
use crate::body::is_hidden_input;
use crate::builder::{Builder, InsertionMode, Next};
use crate::names::{Name, Scope, Space, is_fostering, is_row_group, is_table_part};
use crate::pieces::{Piece, PieceKind};
use crate::tree::NONE;

const TABLE: [Name; 3] = [Name::Table, Name::Template, Name::Html];

const BODIES: [Name; 5] = [
    Name::Tbody,
    Name::Tfoot,
    Name::Thead,
    Name::Template,
    Name::Html,
];

const ROW: [Name; 3] = [Name::Tr, Name::Template, Name::Html];

const GROUPS: [Name; 3] = [Name::Tbody, Name::Tfoot, Name::Thead];

const CELLS: [Name; 2] = [Name::Td, Name::Th];

impl<'a> Builder<'a> {
    /// Takes a piece in the mode "in table".
    pub(crate) fn in_table(&mut self, piece: &Piece<'a>) -> Next {
        let top = self.top();
        let takes_text = is_fostering(top.name) || top.name == Name::Template;
        match piece.kind {
            PieceKind::Text if top.space == Space::Html && takes_text => {
                self.pending.clear();
                self.original = self.mode;
                return self.go(InsertionMode::InTableText);
            }
            PieceKind::Comment => self.add_comment(piece),
            PieceKind::Doctype => {}
            PieceKind::Start => return self.start_in_table(piece),
            PieceKind::End => match piece.name {
                Name::Table => {
                    self.end_table();
                }
                Name::Template => self.end_template(),
                Name::Body | Name::Html => {}
                name if is_table_part(name) => {}
                _ => return self.foster(piece),
            },
            PieceKind::Eof => return self.end_templates(),
            _ => return self.foster(piece),
        }
        Next::Done
    }

    /// Takes a piece by the rules of a body: what it adds goes before the table.
    fn foster(&mut self, piece: &Piece<'a>) -> Next {
        self.is_fostering = true;
        let next = self.in_body(piece);
        self.is_fostering = false;
        next
    }

    /// Takes a piece in the mode "in table text".
    pub(crate) fn in_table_text(&mut self, piece: &Piece<'a>) -> Next {
        if piece.is_text() {
            if self.pending.push(*piece).is_err() {
                self.fault = Some(crate::page::Fault::Memory);
            }
            return Next::Done;
        }
        self.mode = self.original;
        let is_blank = self
            .pending
            .iter()
            .all(|text| text.count(true) == text.word.len());
        for index in 0..self.pending.len() {
            let Some(text) = self.pending.get(index).copied() else {
                break;
            };
            if is_blank {
                self.add_text(&text);
            } else {
                self.foster(&text);
            }
        }
        self.pending.clear();
        Next::Again
    }

    /// Ends the innermost table, if there is one.
    fn end_table(&mut self) -> bool {
        let has_table = self.has(Name::Table, Scope::Table);
        if has_table {
            self.pop_until(&[Name::Table]);
            self.reset_mode();
        }
        has_table
    }

    /// Takes a start tag in a table.
    fn start_in_table(&mut self, piece: &Piece<'a>) -> Next {
        match piece.name {
            name if is_table_part(name) => {
                self.clear_to(&TABLE);
                return self.start_table_part(piece);
            }
            Name::Table => {
                return if self.end_table() {
                    Next::Again
                } else {
                    Next::Done
                };
            }
            Name::Style | Name::Script | Name::Template => {
                self.starts_in_head(piece);
            }
            Name::Input if is_hidden_input(piece) => self.insert_void(piece),
            Name::Form => {
                if self.form == NONE && !self.has_template() {
                    self.form = self.insert(piece);
                    self.pop();
                }
            }
            _ => return self.foster(piece),
        }
        Next::Done
    }

    /// Takes the start tag of a part of a table.
    fn start_table_part(&mut self, piece: &Piece<'a>) -> Next {
        match piece.name {
            Name::Caption => {
                self.push_marker();
                self.insert(piece);
                self.mode = InsertionMode::InCaption;
            }
            Name::Colgroup => {
                self.insert(piece);
                self.mode = InsertionMode::InColumnGroup;
            }
            Name::Col => {
                self.insert_implied(Name::Colgroup);
                return self.go(InsertionMode::InColumnGroup);
            }
            name if is_row_group(name) => {
                self.insert(piece);
                self.mode = InsertionMode::InTableBody;
            }
            _ => {
                self.insert_implied(Name::Tbody);
                return self.go(InsertionMode::InTableBody);
            }
        }
        Next::Done
    }

    /// Takes a piece in the mode "in caption".
    pub(crate) fn in_caption(&mut self, piece: &Piece<'a>) -> Next {
        let is_part = is_table_part(piece.name);
        let ends = match piece.kind {
            PieceKind::Start => is_part,
            PieceKind::End => matches!(piece.name, Name::Caption | Name::Table),
            _ => false,
        };
        if !ends {
            let is_ignored = is_part || matches!(piece.name, Name::Body | Name::Html);
            if piece.kind == PieceKind::End && is_ignored {
                return Next::Done;
            }
            return self.in_body(piece);
        }
        if !self.has(Name::Caption, Scope::Table) {
            return Next::Done;
        }
        self.end_implied(Name::Other);
        self.pop_until(&[Name::Caption]);
        self.formatting.clear();
        self.mode = InsertionMode::InTable;
        if piece.ends(Name::Caption) {
            Next::Done
        } else {
            Next::Again
        }
    }

    /// Takes a piece in the mode "in column group".
    pub(crate) fn in_column_group(&mut self, piece: &Piece<'a>) -> Next {
        match piece.kind {
            PieceKind::Text | PieceKind::Cdata if piece.is_blank() => self.add_text(piece),
            PieceKind::Comment => self.add_comment(piece),
            PieceKind::Doctype => {}
            PieceKind::Start if piece.name == Name::Html => self.start_html(piece),
            PieceKind::Start if piece.name == Name::Col => self.insert_void(piece),
            PieceKind::Start if piece.name == Name::Template => {
                self.starts_in_head(piece);
            }
            PieceKind::End if piece.name == Name::Template => self.end_template(),
            PieceKind::End if piece.name == Name::Col => {}
            PieceKind::Eof => return self.end_templates(),
            _ if self.top_is(Name::Colgroup) => {
                self.pop();
                self.mode = InsertionMode::InTable;
                return if piece.ends(Name::Colgroup) {
                    Next::Done
                } else {
                    Next::Again
                };
            }
            _ => {}
        }
        Next::Done
    }

    /// Takes a piece in the mode "in table body".
    pub(crate) fn in_table_body(&mut self, piece: &Piece<'a>) -> Next {
        let name = piece.name;
        match piece.kind {
            PieceKind::Start if matches!(name, Name::Tr | Name::Td | Name::Th) => {
                self.clear_to(&BODIES);
                if name == Name::Tr {
                    self.insert(piece);
                    self.mode = InsertionMode::InRow;
                    return Next::Done;
                }
                self.insert_implied(Name::Tr);
                self.go(InsertionMode::InRow)
            }
            PieceKind::End if is_row_group(name) => {
                if self.has(name, Scope::Table) {
                    self.clear_to(&BODIES);
                    self.pop();
                    self.mode = InsertionMode::InTable;
                }
                Next::Done
            }
            PieceKind::Start if is_table_part(name) => self.end_group(),
            PieceKind::End if name == Name::Table => self.end_group(),
            PieceKind::End if is_table_part(name) => Next::Done,
            PieceKind::End if matches!(name, Name::Body | Name::Html) => Next::Done,
            _ => self.in_table(piece),
        }
    }

    /// Ends a group of rows, and takes the piece again.
    fn end_group(&mut self) -> Next {
        if !self.has_any(&GROUPS, Scope::Table) {
            return Next::Done;
        }
        self.clear_to(&BODIES);
        self.pop();
        self.go(InsertionMode::InTable)
    }

    /// Takes a piece in the mode "in row".
    pub(crate) fn in_row(&mut self, piece: &Piece<'a>) -> Next {
        let name = piece.name;
        match piece.kind {
            PieceKind::Start if matches!(name, Name::Td | Name::Th) => {
                self.clear_to(&ROW);
                self.insert(piece);
                self.mode = InsertionMode::InCell;
                self.push_marker();
                Next::Done
            }
            PieceKind::Start if is_table_part(name) => self.end_row(false),
            PieceKind::End => match name {
                Name::Tr => self.end_row(true),
                Name::Table => self.end_row(false),
                _ if is_row_group(name) && self.has(name, Scope::Table) => self.end_row(false),
                Name::Body | Name::Html => Next::Done,
                _ if is_table_part(name) => Next::Done,
                _ => self.in_table(piece),
            },
            _ => self.in_table(piece),
        }
    }

    /// Ends a row, and takes the piece again if it is not the row's end tag.
    fn end_row(&mut self, is_end: bool) -> Next {
        if !self.has(Name::Tr, Scope::Table) {
            return Next::Done;
        }
        self.clear_to(&ROW);
        self.pop();
        self.mode = InsertionMode::InTableBody;
        if is_end { Next::Done } else { Next::Again }
    }

    /// Takes a piece in the mode "in cell".
    pub(crate) fn in_cell(&mut self, piece: &Piece<'a>) -> Next {
        let name = piece.name;
        match piece.kind {
            PieceKind::Start if is_table_part(name) => {
                if self.has_any(&CELLS, Scope::Table) {
                    self.end_cell();
                    return Next::Again;
                }
                Next::Done
            }
            PieceKind::End => match name {
                Name::Td | Name::Th => {
                    if self.has(name, Scope::Table) {
                        self.end_cell();
                    }
                    Next::Done
                }
                Name::Body | Name::Caption | Name::Col | Name::Colgroup | Name::Html => Next::Done,
                _ if is_fostering(name) => {
                    if self.has(name, Scope::Table) {
                        self.end_cell();
                        return Next::Again;
                    }
                    Next::Done
                }
                _ => self.in_body(piece),
            },
            _ => self.in_body(piece),
        }
    }

    /// Ends a cell.
    fn end_cell(&mut self) {
        self.end_implied(Name::Other);
        self.pop_until(&CELLS);
        self.formatting.clear();
        self.mode = InsertionMode::InRow;
    }

    /// Notes that a template is open.
    pub(crate) fn start_template(&mut self) {
        self.push_marker();
        self.may_be_frames = false;
        self.mode = InsertionMode::InTemplate;
        if self.templates.push(InsertionMode::InTemplate).is_err() {
            self.fault = Some(crate::page::Fault::Memory);
        }
    }

    /// Ends the innermost template, if there is one.
    pub(crate) fn end_template(&mut self) {
        if self.has_template() {
            self.end_thoroughly();
            self.pop_until(&[Name::Template]);
            self.formatting.clear();
            self.templates.pop();
            self.reset_mode();
        }
    }

    /// Whether an HTML element `template` is open.
    pub(crate) fn has_template(&self) -> bool {
        let least = match &self.context {
            Some(context) if context.name == Name::Template => 1,
            _ => 0,
        };
        self.templates.len() > least
    }

    /// Ends the innermost template at the end of the page, which is then taken again.
    pub(crate) fn end_templates(&mut self) -> Next {
        if !self.has_template() {
            return Next::Done;
        }
        self.pop_until(&[Name::Template]);
        self.formatting.clear();
        self.templates.pop();
        self.reset_mode();
        Next::Again
    }

    /// Takes a piece in the mode "in template".
    pub(crate) fn in_template(&mut self, piece: &Piece<'a>) -> Next {
        match piece.kind {
            PieceKind::Start if is_head_part(piece.name) => {
                self.starts_in_head(piece);
                Next::Done
            }
            PieceKind::Start => {
                let mode = match piece.name {
                    Name::Col => InsertionMode::InColumnGroup,
                    Name::Tr => InsertionMode::InTableBody,
                    Name::Td | Name::Th => InsertionMode::InRow,
                    name if is_table_part(name) => InsertionMode::InTable,
                    _ => InsertionMode::InBody,
                };
                if let Some(last) = self.templates.last_mut() {
                    *last = mode;
                }
                self.go(mode)
            }
            PieceKind::End => {
                if piece.name == Name::Template {
                    self.end_template();
                }
                Next::Done
            }
            _ => self.in_body(piece),
        }
    }

    /// Finds the mode by the open elements.
    pub(crate) fn reset_mode(&mut self) {
        let mut mode = InsertionMode::InBody;
        let mut steps: usize = 0;
        for index in (0..self.open.len()).rev() {
            steps = steps.saturating_add(1);
            let node = match self.context {
                Some(context) if index == 0 => context,
                _ => self.tree.node(self.open_id(index)),
            };
            if node.space == Space::Html {
                if let Some(found) = self.mode_of(node.name, index == 0) {
                    mode = found;
                    break;
                }
            }
        }
        self.spend(steps);
        self.mode = mode;
    }

    /// Returns the mode that an open HTML element leads back to, if it does.
    fn mode_of(&self, name: Name, is_outermost: bool) -> Option<InsertionMode> {
        match name {
            Name::Td | Name::Th | Name::Head if is_outermost => None,
            Name::Td | Name::Th => Some(InsertionMode::InCell),
            Name::Tr => Some(InsertionMode::InRow),
            Name::Tbody | Name::Thead | Name::Tfoot => Some(InsertionMode::InTableBody),
            Name::Caption => Some(InsertionMode::InCaption),
            Name::Colgroup => Some(InsertionMode::InColumnGroup),
            Name::Table => Some(InsertionMode::InTable),
            Name::Template => self.templates.last().copied(),
            Name::Head => Some(InsertionMode::InHead),
            Name::Body => Some(InsertionMode::InBody),
            Name::Frameset => Some(InsertionMode::InFrameset),
            Name::Html if self.head == NONE => Some(InsertionMode::BeforeHead),
            Name::Html => Some(InsertionMode::AfterHead),
            _ => None,
        }
    }
}
