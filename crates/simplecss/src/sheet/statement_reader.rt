//! The statements of a style sheet, one by one.
ghost use Rattle.std.specs.Prelude.{◌≡◌, IfOk, MatchOption, None, OnErr, OnOk, drop};
ghost use Rattle.simplecss_grammar.specs.Statements.{next_statement};
ghost use Rattle.simplecss_grammar.specs.Skipped.{add_each, next_skips};
ghost use Rattle.css_text.specs.ThisEdition.{this_edition};
ghost use Rattle.simplecss.specs.StatementOffsets.{IsNextRange, OccursNext};

use super::reading::{at_statement, report_end};
use super::rules::Rule;
use super::statements::RuleReader;
use css_text::stream::Stream;
use simplecss_grammar::report::Report;
use std::alloc::{AllocError, Global};
use std::marker::Model;

/// A statement of a style sheet (CSS 2.1 section 4.1.5), and where it is in the text, as offsets on
/// character boundaries.
#[derive(Debug, Drop)]
pub struct Statement<'a> {
    /// Where it begins.
    pub start: usize,
    /// Where it ends.
    pub end: usize,
    /// Its rules, in order: an at-rule has none.
    pub rules: Vec<Rule<'a>>,
}

/// Iterates over the statements of a text with their byte ranges.
///
/// A style sheet of the text has the rules of all statements that have a declaration, in the order
/// of their specificity. A statement's rules may take memory quadratic in its length, since each has a
/// copy of the declarations: of a text that is not trusted [`StatementReader::next_range`] finds
/// where the statements are, and [`StyleSheet::read`](crate::StyleSheet::read) takes a limit.
///
/// A `loop` needs a measure, and a `for` over the bytes needs none:
///
/// <!-- from crates/example_library/src/statements.rt -->
/// ```rust
/// let mut reader = StatementReader::new(text);
/// // Each statement has at least one byte.
/// for _ in 0..text.len() {
///     let Some(statement) = reader.read_next(&mut Silent, alloc)? else {
///         break;
///     };
///     if let Some(part) = text.get(statement.start..statement.end) {
///         found.push((part, statement.rules.len()))?;
///     }
/// }
/// ```
#[derive(Debug, Drop)]
pub struct StatementReader<'a> {
    /// The text, with the cursor after the last statement.
    stream: Stream<'a>,
}

impl<'a> Model for StatementReader<'a> {
    ghost use Rattle.std.specs.Prelude.{ℕ, List};
    ghost use Rattle.css_text.specs.Cursor.{text_of, offset_of};

    ghost Value = { List ℕ × ℕ };

    ghost view = { λ r. (text_of r.stream, offset_of r.stream) };
}

impl<'a> StatementReader<'a> {
    /// Returns a reader at the start of the text.
    pub fn new(text: &'a str) -> StatementReader<'a>
        ensures { result ≡ (text.now, 0) }
    {
        StatementReader {
            stream: Stream::new(text),
        }
    }

    /// Returns the next statement, or `None` if there is none, and from then on: at the end of the
    /// text, and at a comment that is not closed. Fails only if an allocation fails, and then the
    /// reader is unchanged. What the statement skips is reported; where there is no statement, a
    /// comment that is open there. [`Report::begin`] is not called.
    pub fn read_next<P: Report<'a>>(
        &mut self,
        report: &mut P,
        alloc: Global,
    ) -> Result<Option<Statement<'a>>, AllocError>
        ensures text { self.new.0 ≡ self.old.0 }
        ensures ok { IfOk result (λ read. MatchOption read
            ((next_statement this_edition (drop self.old.1 self.old.0) ≡ None)
            × (self.new ≡ self.old))
            (λ statement. OccursNext self.old.0 self.old.1 statement
            × (self.new.1 ≡ statement.end))) }
        ensures err { OnErr result (self.new ≡ self.old) }
        ensures reported { OnOk result (P.state report.new ≡ add_each P.add (P.state report.old)
            (next_skips this_edition (drop self.old.1 self.old.0))) }
    {
        let mut stream: Stream<'a> = self.stream;
        let left: &'a str = stream.slice_tail();
        if !at_statement(&mut stream) {
            report_end(report, left)?;
            return Ok(None);
        }
        let start = stream.pos();
        let mut reader: RuleReader<'a> = RuleReader::new(alloc);
        reader.consume_statement(report, alloc, &mut stream)?;
        let Ok(_) = reader.keep_rules(alloc, usize::MAX) else {
            return Err(AllocError);
        };
        self.stream = stream;
        Ok(Some(Statement {
            start,
            end: stream.pos(),
            rules: reader.into_rules(),
        }))
    }

    /// Moves past the next statement as [`StatementReader::read_next`] does, keeps none of its rules,
    /// and returns where it begins and ends. So memory is linear in the text.
    pub fn next_range<P: Report<'a>>(
        &mut self,
        report: &mut P,
        alloc: Global,
    ) -> Result<Option<(usize, usize)>, AllocError>
        ensures text { self.new.0 ≡ self.old.0 }
        ensures ok { IfOk result (λ read. MatchOption read
            ((next_statement this_edition (drop self.old.1 self.old.0) ≡ None)
            × (self.new ≡ self.old))
            (λ range. IsNextRange self.old.0 self.old.1 range.0 range.1
            × (self.new.1 ≡ range.1))) }
        ensures err { OnErr result (self.new ≡ self.old) }
        ensures reported { OnOk result (P.state report.new ≡ add_each P.add (P.state report.old)
            (next_skips this_edition (drop self.old.1 self.old.0))) }
    {
        let mut stream: Stream<'a> = self.stream;
        let left: &'a str = stream.slice_tail();
        if !at_statement(&mut stream) {
            report_end(report, left)?;
            return Ok(None);
        }
        let begin = stream.pos();
        let mut reader: RuleReader<'a> = RuleReader::new(alloc);
        reader.consume_statement(report, alloc, &mut stream)?;
        self.stream = stream;
        Ok(Some((begin, stream.pos())))
    }
}
