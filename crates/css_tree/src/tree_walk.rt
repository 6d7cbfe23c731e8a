//! Walks over the elements of a tree whose siblings are counted.
ghost use Rattle.std.specs.Prelude.{◌≡◌, ◌<◌, ℕ, List, [], IfOk, OnOk, OnErr, IfSome, length, map, reverse, nat_eq};
ghost use Rattle.std.specs.Option.{option_eq};
ghost use Rattle.css_matching.specs.ListTrees.{spot};
ghost use Rattle.css_index.specs.Found.{AreMatches};
ghost use Rattle.css_tree.specs.Answered.{IsMarkedFor};
ghost use Rattle.css_tree.specs.Pages.{page_document, parent_index};
ghost use Rattle.css_index.specs.Tested.{AreTried};
ghost use Rattle.css_tree.specs.Reports.{reported_of};
ghost use Rattle.css_tree.specs.Walks.{IsOpenAt};
ghost use Rattle.css_elements.specs.Ways.{LeadsTo, IsAbove};

use crate::NumberedTree;
use css_elements::find_way;
use css_index::{HasSelector, SelectorWalk};
use css_selectors::Tests;
use std::alloc::{AllocError, Global};
use std::marker::Model;

/// The elements that are open, and where the walk is.
#[derive(Drop)]
pub(crate) struct Opened<'s, 'a> {
    /// The open elements.
    pub(crate) walk: SelectorWalk<'s, 'a>,
    /// The index of the element that was opened last, if one is open.
    pub(crate) place: Option<usize>,
}

impl<'s, 'a> Opened<'s, 'a> {
    /// Whether the element that was opened last is this one, or none is open and this is none.
    fn is_at(&self, element: Option<usize>) -> bool
        ensures { result ≡ option_eq nat_eq self.now.place element }
    {
        self.place == element
    }

    /// Closes the element that was opened last, if one is open.
    fn close(&mut self, page: &NumberedTree<'_, '_>)
        requires { IsOpenAt page.now self.old.walk self.old.place }
        ensures opened { IsOpenAt page.now self.new.walk self.new.place }
        ensures selectors { self.new.walk.selectors ≡ self.old.walk.selectors }
        ensures place { IfSome self.old.place (λ last.
            self.new.place ≡ parent_index page.now.rows last) }
        ensures above { IfSome self.old.place (λ last. IfSome self.new.place (λ parent. parent < last)) }
    {
        if let Some(last) = self.place {
            self.walk.leave();
            self.place = page.parent(last);
        }
    }

    /// Closes elements until the one at a place above was opened last, or none is open.
    fn close_to(&mut self, page: &NumberedTree<'_, '_>, above: Option<usize>)
        requires opened { IsOpenAt page.now self.old.walk self.old.place }
        requires above { IsAbove page.now.rows above self.old.place }
        ensures opened { IsOpenAt page.now self.new.walk self.new.place }
        ensures selectors { self.new.walk.selectors ≡ self.old.walk.selectors }
        ensures place { self.new.place ≡ above }
    {
        'closes: while !self.is_at(above) {
            self.close(page);
        }
    }

    /// Opens elements, the last first.
    fn open_all(
        &mut self,
        page: &NumberedTree<'_, '_>,
        element: Option<usize>,
        between: &mut Vec<usize>,
    ) -> Result<(), AllocError>
        requires opened { IsOpenAt page.now self.old.walk self.old.place }
        requires between { LeadsTo page.now.rows self.old.place (reverse between.old.items) element }
        ensures opened { IsOpenAt page.now self.new.walk self.new.place }
        ensures selectors { self.new.walk.selectors ≡ self.old.walk.selectors }
        ensures place { OnOk result (self.new.place ≡ element) }
    {
        'opens: while let Some(index) = between.pop() {
            let node = page.node(index).unwrap();
            self.walk.enter(&node)?;
            self.place = Some(index);
        }
        Ok(())
    }
}

/// A walk over the elements of a page: the selectors that match each, found by the elements that are
/// open, which are its ancestors. The page is marked with all lists that the selectors ask by numbers
/// ([`NumberedTree::mark`]), and while the walk lives it does not change.
///
/// Elements may be asked in any order. Where each comes after the last one in the order of the document,
/// it opens each element at most once, and only those with children.
///
/// ```text
/// page.mark(alloc, rules.lists(), most)?;
/// let mut walk = TreeWalk::new(alloc, rules.as_slice(), &page)?;
/// for element in 0..page.len() {
///     walk.matching(element, &mut indices, &mut Tests::new())?;
/// }
/// ```
#[derive(Drop)]
pub struct TreeWalk<'s, 'a, 'p, 't> {
    /// The page.
    page: &'s NumberedTree<'p, 't>,
    /// What is open.
    opened: Opened<'s, 'a>,
    /// The indices of elements that are opened next. The list is reused.
    between: Vec<usize>,
}

impl<'s, 'a, 'p, 't> Model for TreeWalk<'s, 'a, 'p, 't> {
    ghost use Rattle.std.specs.Coded.{Coded, codes};
    ghost use Rattle.css_selector_text.specs.Codes.{condition_code};
    ghost use Rattle.css_selector_text.specs.Components.{Simple};
    ghost use Rattle.css_tree.specs.Walks.{IsOpenAt, PageWalk};

    ghost Value = { PageWalk };

    ghost coded = { let simples : Coded Simple = Prim.hlevel codes in
        Prim.hlevel (codes, condition_code simples) };

    ghost view = { λ w. record { page = w.page.now; walk = w.opened.walk } };

    ghost invariant = { λ w. IsOpenAt w.page.now w.opened.walk w.opened.place };
}

impl<'s, 'a, 'p, 't> TreeWalk<'s, 'a, 'p, 't> {
    /// Returns a walk over a page with an index of the selectors of rules. The page answers all of them: each list that
    /// they ask by a number is one of those that it is marked with. No element is open. Fails only if an allocation
    /// fails.
    pub fn new<T: HasSelector<'a>>(
        alloc: Global,
        rules: &'s [T],
        page: &'s NumberedTree<'p, 't>,
    ) -> Result<TreeWalk<'s, 'a, 'p, 't>, AllocError>
        requires { IsMarkedFor (map T.selector_in rules.now) page.now }
        ensures page { IfOk result (λ w. w.page ≡ page.now) }
        ensures selectors { IfOk result (λ w. w.walk.selectors ≡ map T.selector_in rules.now) }
    {
        Ok(TreeWalk {
            page,
            opened: Opened {
                walk: SelectorWalk::on_marked(alloc, rules)?,
                place: None,
            },
            between: Vec::new(alloc),
        })
    }

    /// Returns how many elements the page has.
    pub fn element_count(&self) -> usize
        ensures { result ≡ length self.now.page.rows }
    {
        self.page.len()
    }

    /// Finds the indices of the rules that match the element at an index, in order, and counts the tests:
    /// only a rule is tested of which the element reports a key and open elements report all that it needs
    /// above the element, and only if it requires more than its keys. The previous items of `indices` are
    /// dropped. Fails only if an allocation fails; then no items are left, and the walk goes on.
    pub fn matching(
        &mut self,
        element: usize,
        indices: &mut Vec<usize>,
        tests: &mut Tests,
    ) -> Result<(), AllocError>
        requires { element < length self.old.page.rows }
        ensures matches { OnOk result (AreMatches page_document (spot self.old.page element)
            self.old.walk.selectors indices.new.items) }
        ensures tests { OnOk result ((tried : List ℕ)
            × AreTried page_document (spot self.old.page element) (reported_of (spot self.old.page element))
            self.new.walk tried tests.old tests.new) }
        ensures page { self.new.page ≡ self.old.page }
        ensures selectors { self.new.walk.selectors ≡ self.old.walk.selectors }
        ensures err { OnErr result (indices.new.items ≡ []) }
    {
        indices.clear();
        self.between.clear();
        let page = self.page;
        let parent = page.parent(element);
        let above = find_way(page.tree, self.opened.place, parent, &mut self.between)?;
        self.opened.close_to(page, above);
        self.opened.open_all(page, parent, &mut self.between)?;
        let node = page.node(element).unwrap();
        self.opened
            .walk
            .matching(&node, &mut self.between, indices, tests)
    }
}
