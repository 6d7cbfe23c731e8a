//! Blocks of declarations, and what is skipped before and with a block in a style sheet.
ghost use Rattle.std.specs.Prelude.{◌≡◌, ◌+◌, ◌<◌, ◌^◌, MatchResult, OnOk, IfOk, length, map, option_map};
ghost use Rattle.std.specs.Prelude.{MatchOption, None, false};
ghost use Rattle.std.specs.Str.{IsCharBoundary};
ghost use Rattle.css_text.specs.Reading.{got, each};
ghost use Rattle.css_text.specs.AsciiBytes.{semicolon, open_brace, close_brace};
ghost use Rattle.css_text.specs.Bytes.{past_byte, is_neither, past};
ghost use Rattle.simplecss_grammar.specs.Declarations.{StyleDeclaration, declaration};
ghost use Rattle.simplecss_grammar.specs.Blocks.{count_of, block_end as block_end_of, from_block_end};
ghost use Rattle.simplecss_grammar.specs.Blocks.{ends_list, declaration_in_block, block};
ghost use Rattle.simplecss_grammar.specs.Statements.{next_block, past_semicolon_or_block};
ghost use Rattle.simplecss_grammar.specs.Skipped.{declaration_skips, list_end_skips, brace_skips};
ghost use Rattle.simplecss_grammar.specs.Skipped.{broken_part, list_skips, block_skips};
ghost use Rattle.simplecss_grammar.specs.Skipped.{next_block_skips, add_each};
ghost use Rattle.css_text.specs.ThisEdition.{this_edition};
ghost use Rattle.css_text.specs.Cursor.{text_of, rest_of};
ghost use Rattle.simplecss_declaration.specs.internal.BlockDepths.{ClosesFirst, ClosesNowhere};
ghost use Rattle.simplecss_declaration.specs.internal.ListEnds.{EndsAt};
ghost use Rattle.simplecss_declaration.specs.DeclarationViews.{declaration_of};

use super::declarations::Declaration;
use super::reader::{find_open_value, take_declaration};
use css_text::stream::Stream;
use css_text::{readers, scan};
use simplecss_grammar::report::{Report, Skipped, Why};
use std::alloc::AllocError;

/// The number of bytes that are tested at once.
const CHUNK: usize = 32;

/// Returns the numbers of opening and closing braces. A byte is enough for each, and many are added
/// at once.
#[inline(always)]
fn brace_counts(chunk: &[u8; CHUNK]) -> (usize, usize)
    ensures opening { result.0 ≡ count_of open_brace chunk.now }
    ensures closing { result.1 ≡ count_of close_brace chunk.now }
{
    let mut opening = 0u8;
    let mut closing = 0u8;
    for byte in chunk {
        opening += u8::from(*byte == b'{');
        closing += u8::from(*byte == b'}');
    }
    (usize::from(opening), usize::from(closing))
}

/// Returns the offset of the first closing brace that ends neither a block that begins in these
/// bytes nor one of the `depth` blocks that are open before them. If there is none, the `Err` is
/// the number of blocks that are open after them.
fn outer_brace(bytes: &[u8], depth: usize) -> Result<usize, usize>
    requires { depth + length bytes.now < 2 ^ 64 }
    ensures { MatchResult result (ClosesFirst depth bytes.now) (ClosesNowhere depth bytes.now) }
{
    let mut open = depth;
    for (offset, byte) in bytes.iter().enumerate() {
        match *byte {
            b'{' => open += 1,
            b'}' if open == 0 => return Ok(offset),
            b'}' => open -= 1,
            _ => {}
        }
    }
    Err(open)
}

/// Returns the offset in a chunk of the brace that closes the block, or the number of blocks that
/// are open after the chunk. A chunk is examined byte by byte only if it has more closing braces
/// than blocks are open before it.
#[inline(always)]
fn outer_brace_of_chunk(chunk: &[u8; CHUNK], depth: usize) -> Result<usize, usize>
    requires { depth + CHUNK < 2 ^ 64 }
    ensures { MatchResult result (ClosesFirst depth chunk.now) (ClosesNowhere depth chunk.now) }
{
    let (opening, closing) = brace_counts(chunk);
    if closing > depth {
        return outer_brace(chunk, depth);
    }
    Err(depth + opening - closing)
}

/// Returns the offset at which the current block ends.
fn closing_offset(bytes: &[u8]) -> usize
    ensures { result ≡ block_end_of bytes.now }
{
    let mut depth = 0usize;
    let mut passed = 0usize;
    'chunks: while let Some((chunk, _)) = bytes[passed..].split_first_chunk::<CHUNK>() {
        match outer_brace_of_chunk(chunk, depth) {
            Ok(offset) => return passed + offset,
            Err(deeper) => depth = deeper,
        }
        passed += CHUNK;
    }
    match outer_brace(&bytes[passed..], depth) {
        Ok(offset) => passed + offset,
        Err(_) => bytes.len(),
    }
}

/// Returns the number of bytes before the end of the current block: before the first closing brace
/// that has as many opening as closing ones before it, or all bytes. Quotes and comments are not
/// considered.
#[tactic(auto, using(crate::proofs::BlockLemmas::boundary_at_block_end))]
fn block_end(text: &str) -> usize
    ensures len { result ≡ block_end_of text.now }
    ensures boundary { IsCharBoundary text.now result }
{
    closing_offset(text.as_bytes())
}

/// Skips the rest of the current block, up to the closing brace that ends it.
fn skip_to_block_end(s: &mut Stream<'_>)
    ensures text { text_of s.new ≡ text_of s.old }
    ensures rest { rest_of s.new ≡ from_block_end (rest_of s.old) }
{
    s.advance(block_end(s.slice_tail()));
}

/// Skips the rest of the current block, and the closing brace that ends it.
fn skip_block(s: &mut Stream<'_>)
    ensures text { text_of s.new ≡ text_of s.old }
    ensures rest { rest_of s.new ≡ past_byte close_brace (from_block_end (rest_of s.old)) }
{
    skip_to_block_end(s);
    s.try_consume_byte(b'}');
}

/// Whether a list of declarations ends at the start of the text.
fn ends_list_at(text: &str) -> bool
    ensures { result ≡ ends_list text.now }
{
    at_list_end(&Stream::new(text))
}

/// Reports what follows the declarations of a block, up to the end of the block: nothing if the
/// block or the text ends, an open comment, or a broken declaration.
fn report_list_end<'a, P: Report<'a>>(
    report: &mut P,
    text: &'a str,
    after: &'a str,
) -> Result<(), AllocError>
    ensures { OnOk result (P.state report.new
        ≡ add_each P.add (P.state report.old) (list_end_skips text.now after.now)) }
{
    let gap = scan::find_gap(text);
    let from = &text[gap.len..];
    if ends_list_at(from) {
        return Ok(());
    }
    let why = if gap.unclosed {
        Why::Comment
    } else {
        Why::Declaration
    };
    report.report(Skipped { from, after, why })
}

/// Consumes a closing brace that follows a block, if one does, and reports it.
fn consume_brace<'a, P: Report<'a>>(report: &mut P, s: &mut Stream<'a>) -> Result<(), AllocError>
    ensures text { text_of s.new ≡ text_of s.old }
    ensures rest { rest_of s.new ≡ past_byte close_brace (rest_of s.old) }
    ensures reported { OnOk result (P.state report.new
        ≡ add_each P.add (P.state report.old) (brace_skips (rest_of s.old))) }
{
    let from = s.slice_tail();
    if !readers::skip_byte(s, b'}') {
        return Ok(());
    }
    report.report(Skipped {
        from,
        after: s.slice_tail(),
        why: Why::ExtraBrace,
    })
}

/// Consumes the rest of a block whose declarations end at `text`, with its closing brace and one more
/// that follows it, and reports what is skipped.
#[cold]
#[inline(never)]
fn consume_broken<'a, P: Report<'a>>(
    report: &mut P,
    text: &'a str,
    s: &mut Stream<'a>,
) -> Result<(), AllocError>
    ensures text { text_of s.new ≡ text_of s.old }
    ensures rest { OnOk result (rest_of s.new
        ≡ past_byte close_brace (past_byte close_brace (from_block_end (rest_of s.old)))) }
    ensures reported { OnOk result (P.state report.new ≡ add_each P.add (P.state report.old)
        (broken_part text.now (from_block_end (rest_of s.old)))) }
{
    skip_to_block_end(s);
    report_list_end(report, text, s.slice_tail())?;
    s.try_consume_byte(b'}');
    consume_brace(report, s)
}

/// Whether a list of declarations ends at the cursor: at a closing brace or at the end of the text.
#[inline(always)]
fn at_list_end(s: &Stream<'_>) -> bool
    ensures { result ≡ ends_list (rest_of s.now) }
{
    match readers::peek(s) {
        None => true,
        Some(byte) => byte == b'}',
    }
}

/// Consumes the next declaration of a block, or returns `None` where the block ends or a declaration is
/// broken.
pub fn take_in_block<'a>(s: &mut Stream<'a>) -> Option<Declaration<'a>>
    ensures text { text_of s.new ≡ text_of s.old }
    ensures reads { MatchOption result (declaration_in_block this_edition (rest_of s.old) ≡ None)
        (λ d. (ends_list (rest_of s.old) ≡ false)
        × (declaration this_edition (rest_of s.old) ≡ got (declaration_of d) (rest_of s.new))) }
{
    if at_list_end(s) {
        return None;
    }
    take_declaration(s)
}

/// Reports the string or the function in the value of the declaration at the start of `text` that is
/// not closed, if there is one.
#[cold]
#[inline(never)]
fn report_open_value<'a, P: Report<'a>>(report: &mut P, text: &'a str) -> Result<(), AllocError>
    ensures { OnOk result (P.state report.new
        ≡ add_each P.add (P.state report.old) (declaration_skips this_edition text.now)) }
{
    match find_open_value(text) {
        None => Ok(()),
        Some(from) => report.report(Skipped {
            from,
            after: "",
            why: Why::OpenValue,
        }),
    }
}

/// Reports what is read and skipped of the declaration at the start of `text`, after which the
/// cursor is.
#[inline(always)]
fn report_declared<'a, P: Report<'a>>(
    report: &mut P,
    text: &'a str,
    value: &'a str,
    s: &Stream<'a>,
) -> Result<(), AllocError>
    ensures { (p : StyleDeclaration) → declaration this_edition text.now ≡ got p (rest_of s.now) →
        OnOk result (P.state report.new
        ≡ add_each P.add (P.state report.old) (declaration_skips this_edition text.now)) }
{
    report.declared(text, value);
    // Only a value that takes the rest of the text can be open.
    if s.at_end() {
        return report_open_value(report, text);
    }
    Ok(())
}

/// Reads the declarations of a block into the list, in place of those that it held, and reports
/// each. A broken one ends them; the text from its start is returned, and the cursor is where
/// reading it stopped.
fn consume_declarations<'a, P: Report<'a>>(
    report: &mut P,
    s: &mut Stream<'a>,
    declarations: &mut Vec<Declaration<'a>>,
) -> Result<Option<&'a str>, AllocError>
    ensures text { text_of s.new ≡ text_of s.old }
    ensures values { OnOk result (map declaration_of declarations.new.items
        ≡ (each (declaration_in_block this_edition) (rest_of s.old)).0) }
    ensures list { IfOk result (λ broken. EndsAt this_edition
        (each (declaration_in_block this_edition) (rest_of s.old)).1
        (option_map (λ text. text.now) broken) (rest_of s.new)) }
    ensures reported { OnOk result (add_each P.add (P.state report.new)
        (list_skips this_edition (each (declaration_in_block this_edition) (rest_of s.old)).1)
        ≡ add_each P.add (P.state report.old) (block_skips this_edition (rest_of s.old))) }
{
    declarations.clear();
    'list: while !at_list_end(s) {
        let text = s.slice_tail();
        match take_declaration(s) {
            Some(declaration) => {
                report_declared(report, text, declaration.value, s)?;
                declarations.push(declaration)?;
            }
            None => return Ok(Some(text)),
        }
    }
    Ok(None)
}

/// Reads a block after its opening brace, and consumes one closing brace that directly follows its
/// declarations. So a block that a broken declaration ended consumes a further one. The list then
/// holds only the block's declarations. What is skipped is reported.
#[inline(always)]
fn consume_block<'a, P: Report<'a>>(
    report: &mut P,
    s: &mut Stream<'a>,
    declarations: &mut Vec<Declaration<'a>>,
) -> Result<(), AllocError>
    ensures text { text_of s.new ≡ text_of s.old }
    ensures reads { OnOk result (block this_edition (rest_of s.old)
        ≡ (map declaration_of declarations.new.items, rest_of s.new)) }
    ensures reported { OnOk result (P.state report.new
        ≡ add_each P.add (P.state report.old) (block_skips this_edition (rest_of s.old))) }
{
    let broken = match consume_declarations(report, s, declarations) {
        Ok(broken) => broken,
        Err(error) => return Err(error),
    };
    match broken {
        None => {
            s.try_consume_byte(b'}');
            Ok(())
        }
        Some(text) => consume_broken(report, text, s),
    }
}

/// Reads the declarations of the block that the next opening brace begins into the list, in place
/// of those that it held. Without such a brace there are none, and nothing is left. What the block
/// skips is reported.
pub fn consume_next_block<'a, P: Report<'a>>(
    report: &mut P,
    s: &mut Stream<'a>,
    declarations: &mut Vec<Declaration<'a>>,
) -> Result<(), AllocError>
    ensures text { text_of s.new ≡ text_of s.old }
    ensures reads { OnOk result (next_block this_edition (rest_of s.old)
        ≡ (map declaration_of declarations.new.items, rest_of s.new)) }
    ensures reported { OnOk result (P.state report.new
        ≡ add_each P.add (P.state report.old) (next_block_skips this_edition (rest_of s.old))) }
{
    match scan::find_byte(s.slice_tail(), b'{') {
        Some(at) => {
            s.advance(at + 1);
            consume_block(report, s, declarations)
        }
        None => {
            s.jump_to_end();
            declarations.clear();
            Ok(())
        }
    }
}

/// Skips the rest of an at-rule after its name: up to and including a semicolon or a block.
pub fn skip_semicolon_or_block(s: &mut Stream<'_>)
    ensures text { text_of s.new ≡ text_of s.old }
    ensures rest { rest_of s.new
        ≡ past_semicolon_or_block (past (is_neither semicolon open_brace) (rest_of s.old)) }
{
    s.skip_bytes(|byte| byte != b';' && byte != b'{');
    if readers::skip_byte(s, b'{') {
        skip_block(s);
    } else {
        s.try_consume_byte(b';');
    }
}
