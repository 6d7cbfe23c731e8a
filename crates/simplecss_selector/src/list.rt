//! Reads lists of selectors, with commas between them.
ghost use Rattle.std.specs.Prelude.{◌≡◌, drop, take, length, IfOk, OnOk};
ghost use Rattle.std.specs.Str.{IsCharBoundary};
ghost use Rattle.std.specs.Option.{option_map};
ghost use Rattle.css_text.specs.Positions.{position};
ghost use Rattle.simplecss_grammar.specs.Selectors.{reads};
ghost use Rattle.simplecss_grammar.specs.Skipped.{add_each};
ghost use Rattle.simplecss_grammar.specs.SkipViews.{why_of};
ghost use Rattle.css_text.specs.ThisEdition.{this_edition};
ghost use Rattle.simplecss_selector.specs.SelectorLists.{list_of, list_skips, last_item};
ghost use Rattle.simplecss_selector.specs.SelectorLists.{before_class, without_suffix};
ghost use Rattle.simplecss_selector.specs.SelectorLists.{refused_pos, list_read};
ghost use Rattle.simplecss_selector.specs.ListRefusals.{read_of};

use crate::reading::read_front;
use crate::selector::Selector;
use css_text::stream::Stream;
use css_text::{TextPos, readers};
use simplecss_grammar::report::{Refusal, Report, Skipped, Why};
use std::alloc::{AllocError, Global};

/// Why a text is no list of selectors, and where.
#[derive(Clone, Copy, Debug, PartialEq)]
pub struct ListRefusal<'a> {
    /// The position in the error, if it has one; where a pseudo-class begins whose name is not known;
    /// else where reading stopped.
    pub pos: TextPos,
    /// Why: a selector is refused, or text that is no comma follows one.
    pub why: Why<'a>,
}

/// A reporter that keeps why something is skipped, of the last report.
#[derive(Drop)]
struct LastWhy<'a> {
    /// Why.
    why: Why<'a>,
}

impl<'a> Report<'a> for LastWhy<'a> {
    ghost use Rattle.simplecss_grammar.specs.Skipped.{Why as SkipWhy};
    ghost use Rattle.simplecss_grammar.specs.SkipViews.{why_of};

    ghost State = { SkipWhy };

    ghost state = { λ last. why_of last.why };

    ghost add = { λ _ skip. skip.why };

    ghost begun = { λ why _. why };

    fn begin(&mut self, _text: &'a str) {}

    fn declared(&mut self, _from: &'a str, _value: &'a str) {}

    fn report(&mut self, skipped: Skipped<'a>) -> Result<(), AllocError> {
        self.why = skipped.why;
        Ok(())
    }
}

/// What was read of a text as a list of selectors.
#[derive(Drop)]
struct Items<'a> {
    /// The selectors, if it is a list.
    selectors: Option<Vec<Selector<'a>>>,
    /// Where the last item begins that was read.
    start: usize,
    /// Where reading it stopped.
    stop: usize,
}

/// Reads the items of a list of selectors up to the first that is refused, and reports that, or what
/// follows a selector and is no comma.
fn read_items<'a, P: Report<'a>>(
    report: &mut P,
    alloc: Global,
    text: &'a str,
) -> Result<Items<'a>, AllocError>
    ensures list { IfOk result
        (λ read. option_map (λ l. l.items) read.selectors ≡ list_of this_edition text.now) }
    ensures start { IfOk result (λ read. IsCharBoundary text.now read.start
        × (drop read.start text.now ≡ last_item this_edition text.now)) }
    ensures stop { IfOk result (λ read. IsCharBoundary text.now read.stop
        × (drop read.stop text.now ≡ (reads this_edition (last_item this_edition text.now)).1)) }
    ensures reported { OnOk result (P.state report.new
        ≡ add_each P.add (P.state report.old) (list_skips this_edition text.now)) }
{
    let mut s = Stream::new(text);
    let mut selectors = Vec::new(alloc);
    'items: loop {
        let start = s.pos();
        let (selector, len) = read_front(report, alloc, s.slice_tail())?;
        s.advance(len);
        let stop = s.pos();
        let Some(selector) = selector else {
            return Ok(Items {
                selectors: None,
                start,
                stop,
            });
        };
        selectors.push(selector)?;
        if s.at_end() {
            return Ok(Items {
                selectors: Some(selectors),
                start,
                stop,
            });
        }
        let from = s.slice_tail();
        if !readers::skip_byte(&mut s, b',') {
            report.report(Skipped {
                from,
                after: "",
                why: Why::AfterSelector,
            })?;
            return Ok(Items {
                selectors: None,
                start,
                stop,
            });
        }
    }
}

/// Returns the position of the end of a text.
fn end_of(text: &str) -> TextPos
    ensures { result ≡ position text.now (length text.now) }
{
    Stream::new(text).gen_text_pos_from(text.len())
}

/// Returns the text without `suffix` at its end, if it ends so.
fn without_suffix<'a>(text: &'a str, suffix: &str) -> &'a str
    ensures { result.now ≡ without_suffix suffix.now text.now }
{
    match text.strip_suffix(suffix) {
        Some(front) => front,
        None => text,
    }
}

/// Returns the position of what a selector is refused for, by the text before the selector and the
/// text up to where reading it stopped: that in the error, if it has one, the start of a pseudo-class
/// whose name is not known, and else the end of the second text.
pub fn refused_pos(before: &str, read: &str, why: Why<'_>) -> TextPos
    ensures { result ≡ refused_pos before.now read.now (why_of why.entry) }
{
    match why {
        Why::Selector(Refusal::Faulty { error, .. }) => match error.pos() {
            Some(pos) => end_of(before).in_whole(pos),
            None => end_of(read),
        },
        Why::Selector(Refusal::UnknownClass(name)) => {
            end_of(without_suffix(without_suffix(read, name), ":"))
        }
        _ => end_of(read),
    }
}

/// Returns why a text is no list, and where: of the selector that begins at `start`, and of which
/// reading stopped at `stop`.
fn refusal<'a>(text: &str, start: usize, stop: usize, why: Why<'a>) -> ListRefusal<'a>
    requires start { IsCharBoundary text.now start }
    requires stop { IsCharBoundary text.now stop }
    ensures pos { result.pos
        ≡ refused_pos (take start text.now) (take stop text.now) (why_of why.entry) }
    ensures why { why_of result.why ≡ why_of why.entry }
{
    ListRefusal {
        pos: refused_pos(&text[..start], &text[..stop], why),
        why,
    }
}

/// Reads a list of selectors, or says why a text is none.
pub(crate) fn read_list<'a>(
    alloc: Global,
    text: &'a str,
) -> Result<Result<Vec<Selector<'a>>, ListRefusal<'a>>, AllocError>
    ensures { IfOk result (λ read. read_of (λ l. l.items) read ≡ list_read this_edition text.now) }
{
    let mut last = LastWhy {
        why: Why::AfterSelector,
    };
    let Items {
        selectors,
        start,
        stop,
    } = read_items(&mut last, alloc, text)?;
    match selectors {
        Some(selectors) => Ok(Ok(selectors)),
        None => {
            let LastWhy { why } = last;
            Ok(Err(refusal(text, start, stop, why)))
        }
    }
}
