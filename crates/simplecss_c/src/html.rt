//! HTML pages and XML documents as numbers and strings, edits of them, and encodings.

ghost use Rattle.std.specs.Prelude.{◌≡◌, IfOk, length};
ghost use Rattle.html_calls.specs.Pages.{ArePageNumbers, AreXmlNumbers, past_mark};
ghost use Rattle.call_answers.specs.Answers.{IsAnswered};
ghost use Rattle.call_answers.specs.Outcomes.{outcome_of};
ghost use Rattle.simplecss_c.specs.HtmlCalls.{IsHtmlCall, IsEditCall, IsEncodingCall, is_of_xml};
ghost use Rattle.simplecss_c.specs.HtmlCalls.{language_of as language_of_flags};
ghost use Rattle.simplecss_c.specs.HtmlCalls.{AreNumbers};

use call_answers::answer::{CallError, TreeFault, copy_whole, hand_over};
use call_answers::texts::text_of;
use css_html_tree::page::{Fault, Options};
use css_xml::faults::{Fault as XmlFault, Reason};
use edit_calls::calls::edit;
use html_calls::documents::read_xml;
use html_calls::encodings::encoding_of;
use html_calls::pages::{Answer, Reading, context_of, read};
use html_edits::edits::{Language, Refusal};
use html_encodings::page::line_of;
use std::alloc::Global;

/// The status of a call whose answer is longer than the buffer.
const TOO_SMALL: u32 = 6;
/// The status of a call whose text is not UTF-8.
const NOT_UTF8: u32 = 5;
/// The number of the fault of a page that would have another tree.
const OTHER_TREE: u32 = 5;
/// The flags of how a page is read: scripts run, and what is in templates is left out.
const HAS_SCRIPTS: usize = 1;

const LEAVES_TEMPLATES: usize = 2;

/// Whether the flags of a call say that a text is XML.
fn is_xml(flags: usize) -> bool
    ensures { result ≡ is_of_xml flags }
{
    flags / 4 % 2 == 1
}

/// Returns the number of what is wrong with a document.
fn reason_number(reason: Reason) -> usize {
    match reason {
        Reason::Character => 1,
        Reason::Unclosed => 2,
        Reason::Tag => 3,
        Reason::EndTag => 4,
        Reason::OpenElement => 5,
        Reason::SecondRoot => 6,
        Reason::Text => 7,
        Reason::Instruction => 8,
        Reason::Doctype => 9,
        Reason::SameAttribute => 10,
        Reason::Prefix => 11,
    }
}

/// What is wrong with a document, and where.
#[derive(Clone, Copy)]
struct Flaw {
    reason: usize,
    place: usize,
}

/// Returns the numbers and the strings of an XML document, and sets what is wrong with it.
fn document_of(alloc: Global, bytes: &[u8], flaw: &mut Flaw) -> Result<Answer, CallError>
    ensures { IfOk result (λ answer. AreXmlNumbers (length bytes.now) (past_mark bytes.now)
        answer.numbers.items) }
{
    let text = text_of(bytes)?;
    match read_xml(alloc, text.as_bytes()) {
        Ok(answer) => Ok(answer),
        Err(XmlFault::Memory) => Err(CallError::Memory),
        Err(XmlFault::TooMany) => Err(CallError::AnswerTooLong),
        Err(XmlFault::NotWellFormed(reason, place)) => {
            flaw.reason = reason_number(reason);
            flaw.place = place;
            Err(CallError::Refused)
        }
    }
}

/// Returns the failure of a call for what is wrong with a page.
fn failure_of(fault: Fault) -> CallError {
    match fault {
        Fault::Memory => CallError::Memory,
        Fault::TooDeep | Fault::TooLong => CallError::AnswerTooLong,
    }
}

/// Returns the numbers and the strings of a page.
fn answer_of(alloc: Global, bytes: &[u8], reading: &Reading<'_>) -> Result<Answer, CallError>
    ensures { IfOk result (λ answer. ArePageNumbers (length bytes.now) (past_mark bytes.now)
        answer.numbers.items) }
{
    let text = text_of(bytes)?;
    match read(alloc, text.as_bytes(), reading) {
        Ok(answer) => Ok(answer),
        Err(fault) => Err(failure_of(fault)),
    }
}

/// Returns the numbers and the strings of a page or an XML document.
fn read_answer(
    alloc: Global,
    text: &[u8],
    flags: usize,
    reading: &Reading<'_>,
    flaw: &mut Flaw,
) -> Result<Answer, CallError>
    ensures { IfOk result (λ answer. AreNumbers flags text.now answer.numbers.items) }
{
    if is_xml(flags) {
        document_of(alloc, text, flaw)
    } else {
        answer_of(alloc, text, reading)
    }
}

/// Writes an HTML page as numbers and strings, or the content of an element: the namespace of that and its
/// start tag without `<` and `>` are the context. Or writes an XML document so.
#[unsafe(no_mangle)]
pub extern "C" fn simplecss_html(
    alloc: Global,
    text: &[u8],
    space: usize,
    context: &[u8],
    flags: usize,
    out: &mut [usize],
    len: &mut usize,
    strings: &mut [u8],
    strings_used: &mut usize,
) -> u32
    ensures { IsHtmlCall flags text.now result out.old out.new len.new }
{
    let reading = Reading {
        options: Options {
            has_scripts: flags & HAS_SCRIPTS != 0,
            context: context_of(space, context),
        },
        leaves_templates: flags & LEAVES_TEMPLATES != 0,
    };
    *strings_used = 0;
    *len = 0;
    let mut flaw = Flaw {
        reason: 0,
        place: 0,
    };
    let answer = match read_answer(alloc, text, flags, &reading, &mut flaw) {
        Ok(answer) => answer,
        Err(failure) => {
            *len = flaw.place;
            *strings_used = flaw.reason;
            return failure.status();
        }
    };
    *strings_used = answer.strings.len();
    if strings.len() < answer.strings.len() {
        *len = answer.numbers.len();
        return TOO_SMALL;
    }
    let status = copy_whole(answer.numbers.as_slice(), out, len);
    if status == 0 {
        strings[..answer.strings.len()].copy_from_slice(answer.strings.as_slice());
    }
    status
}

/// Returns the status of a refusal, and sets the number of the tag that it names, from 1.
fn status_of(refusal: Refusal, fault: &mut TreeFault) -> u32
    ensures { ¬ (result ≡ 0) }
{
    match refusal {
        Refusal::Misplaced => 1,
        Refusal::Differs(index) => {
            fault.fault = OTHER_TREE;
            fault.element = index.saturating_add(1);
            2
        }
        Refusal::Memory => 3,
        Refusal::TooDeep => 4,
    }
}

/// Returns the language that the flags of a call say.
fn language_of(flags: usize) -> Language
    ensures { result ≡ language_of_flags flags }
{
    if is_xml(flags) {
        Language::Xml
    } else {
        Language::Html
    }
}

/// Writes a page with edits, each of which has three numbers and two strings.
#[unsafe(no_mangle)]
pub extern "C" fn simplecss_html_edit(
    alloc: Global,
    text: &[u8],
    flags: usize,
    edits: &[usize],
    strings: &[u8],
    ends: &[usize],
    out: &mut [u8],
    len: &mut usize,
    fault: &mut TreeFault,
) -> u32
    ensures { IsEditCall flags text.now result out.old out.new len.new }
{
    *len = 0;
    if text_of(text).is_err() || text_of(strings).is_err() {
        return NOT_UTF8;
    }
    match edit(alloc, language_of(flags), text, edits, strings, ends) {
        Ok(page) => copy_whole(page.as_slice(), out, len),
        Err(refusal) => status_of(refusal, fault),
    }
}

/// Returns what says in which encoding a page is, a tab and the encoding's name.
fn encoding_told(alloc: Global, label: &[u8], page: &[u8]) -> Result<String, CallError>
    ensures { IsEncodingCall label.now page.now (outcome_of result) }
{
    match encoding_of(alloc, label, page) {
        Ok(found) => Ok(line_of(alloc, found)?),
        Err(_) => Err(CallError::Memory),
    }
}

/// Writes what says in which encoding a page is, a tab and the encoding's name. The label is what comes with the page,
/// as from a server.
#[unsafe(no_mangle)]
pub extern "C" fn simplecss_html_encoding(
    alloc: Global,
    text: &[u8],
    label: &[u8],
    out: &mut [u8],
    len: &mut usize,
) -> u32
    ensures { IsAnswered (IsEncodingCall label.now text.now) result out.old out.new len.new }
{
    hand_over(encoding_told(alloc, label, text), out, len)
}
