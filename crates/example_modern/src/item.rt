//! The items of a list, as elements.
ghost use Rattle.std.specs.Prelude.{◌≡◌, ◌<◌, ◌^◌, length};

use css_selectors::{Element, NamespacedAttribute};

/// What is within an item.
#[derive(Clone, Copy)]
pub enum Content {
    /// Nothing.
    Nothing,
    /// A comment.
    Comment,
    /// A text.
    Text,
}

/// An entry of the list: the class of an item, and what is within the item.
#[derive(Clone, Copy)]
pub struct Entry<'t> {
    /// The value of the attribute `class`.
    pub class: &'t str,
    /// What is within the item.
    pub content: Content,
}

/// An item: all entries of the list, and its index.
#[derive(Drop)]
pub struct Item<'t> {
    entries: &'t [Entry<'t>],
    index: usize,
    pub ghost within: { index < length entries.now },
    pub ghost few: { length entries.now < 2 ^ 32 },
}

impl<'t> Item<'t> {
    /// Returns the item at the index.
    pub fn new(entries: &'t [Entry<'t>], index: usize) -> Item<'t>
        requires within { index < length entries.now }
        requires few { length entries.now < 2 ^ 32 }
    {
        Item { entries, index }
    }
}

impl<'t> Element for Item<'t> {
    ghost use Rattle.example_modern.specs.Items.{Item as ItemOf, items, depths_count, earlier_count, parents_shared};

    ghost Node = { ItemOf };

    ghost document = { items };

    ghost node = { λ item. (item.entries.now, item.index) };

    ghost depth_law = { depths_count };

    ghost earlier_law = { earlier_count };

    ghost sibling_law = { parents_shared };

    fn parent(&self) -> Option<Self> {
        None
    }

    fn previous_sibling(&self) -> Option<Self> {
        if self.index == 0 {
            return None;
        }
        Some(Item {
            entries: self.entries,
            index: self.index - 1,
        })
    }

    fn earlier_siblings(&self) -> u32 {
        self.index as u32
    }

    fn later_siblings(&self) -> u32 {
        (self.entries.len() - (self.index + 1)) as u32
    }

    fn earlier_of_type(&self) -> u32 {
        self.index as u32
    }

    fn later_of_type(&self) -> u32 {
        (self.entries.len() - (self.index + 1)) as u32
    }

    fn is_named(&self, name: &str) -> bool {
        name == "li"
    }

    fn is_in_namespace(&self, number: usize) -> bool {
        number == 0
    }

    fn attribute(&self, name: &str) -> Option<&str> {
        if name == "class" {
            Some(self.entries[self.index].class)
        } else {
            None
        }
    }

    fn namespaced_attribute(&self, _index: usize) -> Option<NamespacedAttribute<'_>> {
        None
    }

    fn is_in_state(&self, _name: &str) -> bool {
        false
    }

    fn is_in_language(&self, _range: &str) -> bool {
        false
    }

    fn has_content(&self) -> bool {
        match self.entries[self.index].content {
            Content::Nothing | Content::Comment => false,
            Content::Text => true,
        }
    }

    fn is_in_list(&self, number: usize) -> bool {
        number == 0
    }
}
