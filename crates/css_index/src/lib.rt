//! An index of modern selectors. An element is tested against only those of which it has a key.
//!
//! The keys of a selector are ids, classes, and names of elements or attributes, of which each
//! element that it matches has one (`css_selectors::push_keys`). [`SelectorIndex`] files the selectors
//! by their keys, and [`SelectorIndex::matching`] finds for an element the indices of exactly the
//! selectors that match it, in order. The element reports its names by [`Keyed`].
//!
//! ```text
//! let selectors = Selector::parse_list(alloc, "p.note, ul > li, :is(h1, h2)")?;
//! if let Some(index) = SelectorIndex::new(alloc, selectors.as_slice())? {
//!     let mut indices = Vec::new(alloc);
//!     index.matching(&element, &mut indices)?;
//! }
//! ```
//!
//! Selectors that need a page have no such index. For the elements of a page that is marked with their lists there is
//! [`SelectorIndex::on_marked`].
//!
//! The items of the index are any type with [`HasSelector`], as a rule with declarations, or
//! references to selectors. A search costs a look-up for the name, the id, each class and each
//! attribute of the element, and less for most that no selector has as a key; of the classes after
//! the first eight one that is repeated is looked up once. A candidate that requires nothing but its
//! keys, as `.a` or `:is(.a, .b)`, is not tested, and the others are; of one that begins with its key,
//! as `.a:hover`, only the rest is tested. A selector with many keys is filed once for each.
//!
//! [`SelectorWalk`] is an index for a walk along a page: it leaves out, too, candidates that need an
//! ancestor or a parent with a key which no open element has. `TreeWalk` of `css_tree` walks along a
//! ready tree.
#![tactic(auto)]

mod above;
mod filed_key;
mod indexed_selector;
mod keeping;
mod key_numbers;
mod keyed;
mod need;
mod selector_index;
mod selector_walk;
mod sieve;
mod table;
mod words;

pub use css_selector_text::HasSelector;
pub use keyed::Keyed;
pub use selector_index::SelectorIndex;
pub use selector_walk::SelectorWalk;
