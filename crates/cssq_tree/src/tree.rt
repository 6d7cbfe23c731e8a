//! A tree of elements from its text.

ghost use Rattle.std.specs.Prelude.{◌≡◌, ◌∷◌, ◌++◌, ◌+◌, ◌<◌, ◌≤◌, ◌==◌, [], length, take, nat_le, map};
ghost use Rattle.std.specs.Prelude.{IfSome, IfOk, IfErr, Ok, MatchOption, MatchResult, is_some, Some, IsTrue};
ghost use Rattle.std.specs.Prelude.{None};
ghost use Rattle.std.specs.Prelude.{option_map, codes};
ghost use Rattle.std.specs.List.{list_all, slice_get, position_or_len};
ghost use Rattle.std.specs.Str.{IsCharBoundary};
ghost use Rattle.std.specs.Char.{is_ascii_digit};
ghost use Rattle.cssq_tree.specs.TreeText.{attribute_of, fields_in, fields_of, has_equals, key_of};
ghost use Rattle.cssq_tree.specs.TreeText.{value_of, lines_of, is_depth, spelled_depth, has_key};
ghost use Rattle.cssq_tree.specs.TreeText.{field_faults, fault_number, fault_line, faults_of_line};
ghost use Rattle.cssq_tree.specs.TreeText.{tree_of, IsFaultOf};
ghost use Rattle.cssq_tree.specs.ParentsAndSiblings.{depths_of, last_index, parent_index};
ghost use Rattle.cssq_tree.specs.ParentsAndSiblings.{previous_index};
ghost use Rattle.cssq_tree.specs.PageNodes.{spot, name_at, attribute_at, value_in, page_tree};
ghost use Rattle.cssq_tree.specs.internal.EntryLines.{depths, AreLinked, IsReportedFor, Says};
ghost use Rattle.cssq_tree.specs.internal.EntryLines.{IsAdded};
ghost use Rattle.cssq_tree.specs.internal.Marks.{AreMarked};
ghost use Rattle.cssq_tree.specs.internal.Spans.{AreValues, IsCut, text_in};

mod entry;

use css_matching::hashes::mark_of;
use entry::{Entry, Values};
use simplecss_selector::{AttributeOperator, Element, Exact, Keyed, PseudoClass};
use std::alloc::{AllocError, Global};
use std::collections::BTreeSet;
use std::marker::Model;

/// What is wrong with a tree's text, with the number of the line at which it is, the first being 1.
#[derive(Clone, Copy, PartialEq, Debug)]
pub enum TreeFault {
    /// The first field is no depth (`0`, or digits without a leading zero), or one that is not
    /// allowed there: on the first line a depth is 0, and on another at most one more than that of
    /// the line before. An empty line has this fault.
    BadDepth(usize),
    /// There is no second field, the name, or it is empty.
    EmptyName(usize),
    /// A further field, an attribute, has no `=`.
    NoEquals(usize),
    /// An attribute has the key of an earlier one of its line.
    RepeatedKey(usize),
    /// A growth was refused at this line, and no line up to it has another fault.
    Memory(usize),
}

impl TreeFault {
    /// The number of the kind of fault.
    pub fn number(&self) -> u8
        ensures { result ≡ fault_number self.now }
    {
        match self {
            TreeFault::BadDepth(_) => 1,
            TreeFault::EmptyName(_) => 2,
            TreeFault::NoEquals(_) => 3,
            TreeFault::RepeatedKey(_) => 4,
            TreeFault::Memory(_) => 5,
        }
    }

    /// The number of the line.
    pub fn line(&self) -> usize
        ensures { result ≡ fault_line self.now }
    {
        match self {
            TreeFault::BadDepth(line)
            | TreeFault::EmptyName(line)
            | TreeFault::NoEquals(line)
            | TreeFault::RepeatedKey(line)
            | TreeFault::Memory(line) => *line,
        }
    }
}

/// A line among the others.
#[derive(Clone, Copy, Debug)]
struct Line<'t> {
    /// What the line says.
    entry: Entry<'t>,
    /// The index of the parent, if there is one.
    parent: Option<usize>,
    /// The index of the previous sibling, if there is one.
    previous: Option<usize>,
}

/// How many attribute fields are compared in pairs.
const FEW: usize = 16;

/// How many bytes are looked at one by one, before a text is searched several bytes at a time.
const NEAR: usize = 16;

/// How many bytes precede the first such byte, one by one. All of them do where there is none.
#[inline(always)]
fn count_near(bytes: &[u8], byte: u8) -> usize
    ensures { result ≡ position_or_len (λ b. b == byte) bytes.now }
{
    bytes.iter().take_while(|b| **b != byte).count()
}

/// Does what [`count_near`] does with a text, several bytes at a time.
fn count_far(text: &str, byte: u8) -> usize
    requires { byte < 128 }
    ensures { result ≡ position_or_len (λ b. b == byte) text.now }
{
    text.find(char::from(byte)).unwrap_or(text.len())
}

/// How many bytes of a text precede the first such byte. All of them do where there is none. Most
/// fields are short: a loop finds their ends sooner than a search of several bytes at a time.
#[inline(always)]
fn count_before(text: &str, byte: u8) -> usize
    requires { byte < 128 }
    ensures { result ≡ position_or_len (λ b. b == byte) text.now }
{
    let bytes = text.as_bytes();
    if bytes.len() <= NEAR {
        return count_near(bytes, byte);
    }
    let near = count_near(&bytes[..NEAR], byte);
    if near < NEAR {
        near
    } else {
        count_far(text, byte)
    }
}

/// How many bytes of a text precede the first such byte. All of them do where there is none.
#[inline(always)]
fn len_before(text: &str, byte: u8) -> usize
    requires { byte < 128 }
    ensures len { result ≡ position_or_len (λ b. b == byte) text.now }
    ensures within { result ≤ length text.now }
    ensures boundary { IsCharBoundary text.now result }
    ensures after { result < length text.now → IsCharBoundary text.now (result + 1) }
{
    count_before(text, byte)
}

/// Returns the first line of a text that is not empty, and the text after it.
#[inline(always)]
fn cut_line(text: &str) -> (&str, &str)
    requires { 0 < length text.now }
    ensures lines { lines_of text.now ≡ result.0.now ∷ lines_of result.1.now }
    ensures shorter { length result.1.now < length text.now }
{
    match text.split_once('\n') {
        Some(parts) => parts,
        None => (text, ""),
    }
}

/// The first field of a text, and the text of the others.
#[inline(always)]
fn cut_field(text: &str) -> (&str, Option<&str>)
    ensures fields { fields_of text.now ≡ result.0.now ∷ fields_in result.1 }
    ensures within { length result.0.now ≤ length text.now }
    ensures shorter { IfSome result.1 (λ others. length others.now < length text.now) }
    ensures cut { IsCut text.now result.0.now result.1 }
{
    let len = len_before(text, b'\t');
    if len < text.len() {
        (&text[..len], Some(&text[len + 1..]))
    } else {
        (text, None)
    }
}

/// Whether the field is `0`, or digits with no zero in front.
#[tactic(auto, using(crate::proofs::DepthDigits::depth_digits))]
fn is_depth(field: &str) -> bool
    ensures { result ≡ is_depth field.now }
{
    match field.as_bytes() {
        [] => false,
        [b'0', others @ ..] => others.is_empty(),
        digits => are_digits(digits),
    }
}

/// Whether all the bytes are decimal digits.
fn are_digits(bytes: &[u8]) -> bool
    ensures { result ≡ list_all is_ascii_digit bytes.now }
{
    bytes.iter().all(|b| b.is_ascii_digit())
}

/// The depth that the field spells, where that is at most the limit.
#[tactic(auto, using(crate::proofs::DepthDigits::depth_other))]
fn spelled_depth(field: &str, limit: usize) -> Option<usize>
    ensures value { result ≡ spelled_depth limit field.now }
    ensures within { IfSome result (λ depth. depth ≤ limit) }
{
    if !is_depth(field) {
        return None;
    }
    let Ok(depth) = field.parse::<usize>() else {
        return None;
    };
    if depth <= limit { Some(depth) } else { None }
}

/// Whether one of the first fields has the key. `seen` has the bit of each of their keys, so most
/// keys are compared with none.
#[inline(always)]
fn is_repeated(all: &str, count: usize, seen: u64, key: &str) -> bool
    requires { AreMarked (take count (fields_of all.now)) seen }
    ensures { result ≡ has_key (take count (fields_of all.now)) key.now }
{
    let mark = mark_of(key);
    if seen | mark != seen {
        return false;
    }
    has_key(Some(all), count, key)
}

/// Whether one of the first fields has the key.
fn has_key(fields: Option<&str>, count: usize, key: &str) -> bool
    ensures { result ≡ has_key (take count (fields_in fields.entry)) key.now }
{
    let mut rest = fields;
    for i in 0..count {
        let Some(text) = rest else {
            return false;
        };
        let (field, others) = cut_field(text);
        let (name, _) = attribute_of(field);
        if name == key {
            return true;
        }
        rest = others;
    }
    false
}

/// The key and the value of a field, where it has a `=`.
#[inline(always)]
fn cut_attribute(field: &str) -> Option<(&str, &str)>
    ensures found { is_some result ≡ has_equals field.now }
    ensures key { IfSome result (λ a. a.0.now ≡ key_of field.now) }
    ensures value { IfSome result (λ a. a.1.now ≡ value_of field.now) }
{
    let len = len_before(field, b'=');
    if len < field.len() {
        Some((&field[..len], &field[len + 1..]))
    } else {
        None
    }
}

/// Returns what is before the first `=`, and what is after it.
fn attribute_of(field: &str) -> (&str, &str)
    ensures key { result.0.now ≡ key_of field.now }
    ensures value { result.1.now ≡ value_of field.now }
{
    cut_attribute(field).unwrap_or((field, ""))
}

/// Reads the attribute fields of a line, and compares each key with those before it, unless the
/// fields are known to be sound. Returns `None` if they are more than the limit, if there is one.
fn read_each(
    number: usize,
    all: &str,
    are_sound: bool,
    limit: Option<usize>,
) -> Result<Option<Values>, TreeFault>
    requires { IsTrue are_sound → field_faults number (fields_of all.now) ≡ [] }
    ensures sound { IfOk result (λ read. IfSome read (λ values.
        (field_faults number (fields_of all.now) ≡ [])
        × AreValues all.now (fields_of all.now) values)) }
    ensures all { limit ≡ None → IfOk result (λ read. IsTrue (is_some read)) }
    ensures fault { IfErr result
        (λ fault. Some fault ≡ slice_get (field_faults number (fields_of all.now)) 0) }
{
    let mut values = Values::none();
    let mut rest = Some(all);
    let mut count = 0;
    let mut seen = 0;
    while let Some(text) = rest {
        if limit.is_some_and(|most| count >= most) {
            return Ok(None);
        }
        let (field, others) = cut_field(text);
        let Some((key, value)) = cut_attribute(field) else {
            return Err(TreeFault::NoEquals(number));
        };
        if !are_sound && is_repeated(all, count, seen, key) {
            return Err(TreeFault::RepeatedKey(number));
        }
        let at = all.len() - text.len() + key.len() + 1;
        values = values.with(key, at, value.len());
        count += 1;
        seen |= mark_of(key);
        rest = others;
    }
    Ok(Some(values))
}

/// The first fault of the attribute fields of a line, with the keys in a set. Its time grows with
/// the length of the line and little more.
fn first_fault_by_set(
    alloc: Global,
    number: usize,
    all: &str,
) -> Result<Option<TreeFault>, AllocError>
    ensures { IfOk result
        (λ fault. fault ≡ slice_get (field_faults number (fields_of all.now)) 0) }
{
    let mut keys = BTreeSet::new(alloc);
    let mut rest = Some(all);
    while let Some(text) = rest {
        let (field, others) = cut_field(text);
        let Some((key, _)) = cut_attribute(field) else {
            return Ok(Some(TreeFault::NoEquals(number)));
        };
        if !keys.insert(key)? {
            return Ok(Some(TreeFault::RepeatedKey(number)));
        }
        rest = others;
    }
    Ok(None)
}

/// Reads all attribute fields of a line, as [`read_each`] does without a limit.
fn read_all(number: usize, all: &str, are_sound: bool) -> Result<Values, TreeFault>
    requires { IsTrue are_sound → field_faults number (fields_of all.now) ≡ [] }
    ensures sound { IfOk result (λ values. (field_faults number (fields_of all.now) ≡ [])
        × AreValues all.now (fields_of all.now) values) }
    ensures fault { IfErr result
        (λ fault. Some fault ≡ slice_get (field_faults number (fields_of all.now)) 0) }
{
    let values = read_each(number, all, are_sound, None)?;
    Ok(values.unwrap())
}

/// Reads many attribute fields of a line. If memory for a set of their keys is refused, they are
/// compared in pairs, so that `Memory` is reported only for a line with no other fault.
fn read_many(alloc: Global, number: usize, all: &str) -> Result<Values, TreeFault>
    ensures sound { IfOk result (λ values. (field_faults number (fields_of all.now) ≡ [])
        × AreValues all.now (fields_of all.now) values) }
    ensures fault { IfErr result
        (λ fault. IsReportedFor number (field_faults number (fields_of all.now)) fault) }
{
    match first_fault_by_set(alloc, number, all) {
        Ok(Some(fault)) => Err(fault),
        Ok(None) => read_all(number, all, true),
        Err(_) => match read_all(number, all, false) {
            Ok(_) => Err(TreeFault::Memory(number)),
            Err(fault) => Err(fault),
        },
    }
}

/// Reads the attribute fields of a line, if there are some.
fn read_fields(alloc: Global, number: usize, fields: Option<&str>) -> Result<Values, TreeFault>
    ensures sound { IfOk result (λ values. (field_faults number (fields_in fields.entry) ≡ [])
        × AreValues (text_in fields.entry) (fields_in fields.entry) values) }
    ensures fault { IfErr result (λ fault. IsReportedFor number
        (field_faults number (fields_in fields.entry)) fault) }
{
    match fields {
        None => Ok(Values::none()),
        Some(all) => match read_each(number, all, false, Some(FEW)) {
            Ok(Some(values)) => Ok(values),
            Ok(None) => read_many(alloc, number, all),
            Err(fault) => Err(fault),
        },
    }
}

/// The value of the first field with the key.
fn value_at<'t>(fields: Option<&'t str>, key: &str) -> Option<&'t str>
    ensures { option_map (λ value. value.now) result
        ≡ value_in (map attribute_of (fields_in fields.entry)) key.now }
{
    let mut rest = fields;
    while let Some(text) = rest {
        let (field, others) = cut_field(text);
        let (name, value) = attribute_of(field);
        if name == key {
            return Some(value);
        }
        rest = others;
    }
    None
}

/// What a line says, or what is wrong with it.
fn read_line(alloc: Global, number: usize, limit: usize, line: &str) -> Result<Entry<'_>, TreeFault>
    ensures value { MatchResult result (λ e. Says number limit line.now e)
        (λ fault. IsReportedFor number (faults_of_line number limit (fields_of line.now)) fault) }
    ensures within { IfOk result (λ e. e.depth ≤ limit) }
{
    let (depth, rest) = cut_field(line);
    let Some(depth) = spelled_depth(depth, limit) else {
        return Err(TreeFault::BadDepth(number));
    };
    let Some(fields) = rest else {
        return Err(TreeFault::EmptyName(number));
    };
    let (name, attributes) = cut_field(fields);
    if name.is_empty() {
        return Err(TreeFault::EmptyName(number));
    }
    let values = read_fields(alloc, number, attributes)?;
    Ok(Entry::new(depth, fields, name.len(), values))
}

/// The last line whose depth is at most the one that is given.
fn nearest(lines: &[Line<'_>], depth: usize) -> Option<usize>
    requires { AreLinked lines.now }
    ensures value { result ≡ last_index (λ d. nat_le d depth) (depths lines.now) }
    ensures within { IfSome result (λ i. i < length lines.now) }
{
    let mut candidate = lines.len().checked_sub(1);
    while let Some(i) = candidate {
        let line = lines[i];
        if line.entry.depth <= depth {
            break;
        }
        candidate = line.parent;
    }
    candidate
}

/// Returns the line of an entry that follows others.
fn link<'t>(lines: &[Line<'t>], entry: Entry<'t>) -> Line<'t>
    requires { AreLinked lines.now }
    ensures entry { result.entry ≡ entry.entry }
    ensures linked { AreLinked (lines.now ++ result ∷ []) }
{
    match nearest(lines, entry.depth) {
        None => Line {
            entry,
            parent: None,
            previous: None,
        },
        Some(i) => {
            let near = lines[i];
            if near.entry.depth == entry.depth {
                Line {
                    entry,
                    parent: near.parent,
                    previous: Some(i),
                }
            } else {
                Line {
                    entry,
                    parent: Some(i),
                    previous: None,
                }
            }
        }
    }
}

/// Appends the entry of a line's text to the lines, or reports what is wrong with it. Returns the
/// greatest depth that the next line may have.
#[inline(always)]
fn add_line<'t>(
    alloc: Global,
    lines: &mut Vec<Line<'t>>,
    limit: usize,
    text: &'t str,
) -> Result<usize, TreeFault>
    requires linked { AreLinked lines.old.items }
    requires low { limit ≤ length lines.old.items }
    ensures ok { IfOk result (IsAdded lines.old.items limit text.now lines.new.items) }
    ensures fault { IfErr result (IsReportedFor (length lines.old.items + 1)
        (faults_of_line (length lines.old.items + 1) limit (fields_of text.now))) }
{
    let number = lines.len() + 1;
    let entry = read_line(alloc, number, limit, text)?;
    let line = link(lines.as_slice(), entry);
    match lines.push(line) {
        Ok(()) => Ok(entry.depth + 1),
        Err(_) => Err(TreeFault::Memory(number)),
    }
}

/// The elements of a tree, in the order of their lines.
#[derive(Debug, Drop)]
pub struct Page<'t> {
    /// A line for each element.
    lines: Vec<Line<'t>>,
}

impl<'t> Model for Page<'t> {
    ghost use Rattle.std.specs.Prelude.{List};
    ghost use Rattle.cssq_tree.specs.TreeText.{Row};

    ghost Value = { List Row };

    ghost use Rattle.cssq_tree.specs.internal.EntryLines.{rows, AreLinked};

    ghost view = { λ p. rows p.lines.items };

    ghost invariant = { λ p. AreLinked p.lines.items };
}

impl<'t> Page<'t> {
    /// The page of the text, or the fault of its first faulty line.
    pub fn read(alloc: Global, text: &'t str) -> Result<Page<'t>, TreeFault>
        ensures ok { IfOk result (λ page. tree_of text.now ≡ Ok page) }
        ensures fault { IfErr result (λ fault. IsFaultOf fault text.now) }
    {
        let mut lines = Vec::new(alloc);
        let mut rest = text;
        let mut limit = 0;
        while !rest.is_empty() {
            let (line, others) = cut_line(rest);
            limit = add_line(alloc, &mut lines, limit, line)?;
            rest = others;
        }
        Ok(Page { lines })
    }

    /// How many elements there are.
    pub fn len(&self) -> usize
        ensures { result ≡ length self.now }
    {
        self.lines.len()
    }

    /// The element with an index among the lines.
    pub fn node(&self, index: usize) -> Option<Node<'_, 't>>
        ensures { MatchOption result (length self.now ≤ index)
            (λ node. (index < length self.now) × (node ≡ spot self.now index)) }
    {
        if index < self.len() {
            Some(Node { page: self, index })
        } else {
            None
        }
    }

    /// The index of the parent of the element at an index.
    #[inline(always)]
    pub fn parent(&self, index: usize) -> Option<usize>
        requires { index < length self.now }
        ensures value { result ≡ parent_index (depths_of self.now) index }
        ensures before { IfSome result (λ parent. parent < index) }
        ensures within { IfSome result (λ parent. parent < length self.now) }
    {
        self.lines[index].parent
    }

    /// The index of the previous sibling of the element at an index.
    #[inline(always)]
    fn previous(&self, index: usize) -> Option<usize>
        requires { index < length self.now }
        ensures value { result ≡ previous_index (depths_of self.now) index }
        ensures within { IfSome result (λ previous. previous < length self.now) }
    {
        self.lines[index].previous
    }

    /// The name of the element at an index.
    #[inline(always)]
    fn name(&self, index: usize) -> &'t str
        requires { index < length self.now }
        ensures { result.now ≡ name_at self.now index }
    {
        self.lines[index].entry.name()
    }

    /// The value of the attribute `id` of the element at an index.
    #[inline(always)]
    fn id(&self, index: usize) -> Option<&'t str>
        requires { index < length self.now }
        ensures { option_map (λ value. value.now) result
            ≡ attribute_at self.now index (codes "id") }
    {
        self.lines[index].entry.id()
    }

    /// The value of the attribute `class` of the element at an index.
    #[inline(always)]
    fn class(&self, index: usize) -> Option<&'t str>
        requires { index < length self.now }
        ensures { option_map (λ value. value.now) result
            ≡ attribute_at self.now index (codes "class") }
    {
        self.lines[index].entry.class()
    }

    /// Whether the element at an index has an attribute with the key.
    #[inline(always)]
    fn has_attribute(&self, index: usize, key: &str) -> bool
        requires { index < length self.now }
        ensures { result ≡ is_some (attribute_at self.now index key.now) }
    {
        self.lines[index].entry.has(key)
    }

    /// The value of the first attribute with the key, of the element at an index.
    fn attribute(&self, index: usize, key: &str) -> Option<&'t str>
        requires { index < length self.now }
        ensures { option_map (λ value. value.now) result ≡ attribute_at self.now index key.now }
    {
        self.lines[index].entry.attribute(key)
    }
}

/// An element of a page.
#[derive(Drop)]
pub struct Node<'p, 't> {
    /// The page that the element is of.
    page: &'p Page<'t>,
    /// Its index among the lines.
    index: usize,
}

impl<'p, 't> Model for Node<'p, 't> {
    ghost use Rattle.std.specs.Prelude.{◌<◌, length};
    ghost use Rattle.cssq_tree.specs.PageNodes.{Spot, spot};

    ghost Value = { Spot };

    ghost view = { λ node. spot node.page.now node.index };

    ghost invariant = { λ node. node.index < length node.page.now };
}

/// Names and values compare byte by byte. A first child is an element without a previous sibling.
/// An element is in none of the other pseudo-classes.
impl<'p, 't> Element for Node<'p, 't> {
    ghost use Rattle.cssq_tree.specs.PageNodes.{Spot, page_tree};
    ghost use Rattle.cssq_tree.specs.ElementLaws.{depths_count_ancestors, siblings_share_parents};

    ghost Node = { Spot };

    ghost tree = { page_tree };

    ghost node = { λ node. node };

    ghost depth_law = { depths_count_ancestors };

    ghost sibling_law = { siblings_share_parents };

    #[inline(always)]
    fn parent_element(&self) -> Option<Self> {
        let page = self.page;
        let index = page.parent(self.index)?;
        Some(Node { page, index })
    }

    #[inline(always)]
    fn prev_sibling_element(&self) -> Option<Self> {
        let page = self.page;
        let index = page.previous(self.index)?;
        Some(Node { page, index })
    }

    #[inline(always)]
    fn has_local_name(&self, name: &str) -> bool {
        self.page.name(self.index) == name
    }

    fn attribute_matches(&self, local_name: &str, operator: AttributeOperator<'_>) -> bool {
        match self.page.attribute(self.index, local_name) {
            Some(value) => operator.matches(value),
            None => false,
        }
    }

    #[inline(always)]
    fn pseudo_class_matches(&self, class: PseudoClass<'_>) -> bool {
        match class {
            PseudoClass::FirstChild => self.page.previous(self.index).is_none(),
            _ => false,
        }
    }
}

/// By its name and its attributes `id` and `class`.
impl<'p, 't> Keyed for Node<'p, 't> {
    ghost use Rattle.cssq_tree.specs.PageNodes.{reported_of};
    ghost use Rattle.cssq_tree.specs.ElementLaws.{keys_reported};

    ghost reported = { reported_of };

    ghost reported_law = { keys_reported };

    #[inline(always)]
    fn local_name(&self) -> &str {
        self.page.name(self.index)
    }

    #[inline(always)]
    fn id_value(&self) -> Option<&str> {
        self.page.id(self.index)
    }

    #[inline(always)]
    fn class_value(&self) -> Option<&str> {
        self.page.class(self.index)
    }

    fn has_attribute(&self, name: &str) -> bool {
        self.page.has_attribute(self.index, name)
    }
}

/// Names and values are reported as they are compared.
impl<'p, 't> Exact for Node<'p, 't> {
    ghost use Rattle.cssq_tree.specs.ElementLaws.{only_keys_reported};

    ghost exact_law = { only_keys_reported };
}
