//! Groups of members, and which of its group are before and after each.
ghost use Rattle.std.specs.Prelude.{◌≡◌, ◌<◌, ◌^◌, [], Some, IfOk, OnOk, length, slice_get};
ghost use Rattle.std.specs.Prelude.{ℕ, IfSome, slice_index_or};
ghost use Rattle.std.specs.List.{All};
ghost use Rattle.css_tree.specs.Counts.{count_below};
ghost use Rattle.css_tree.specs.GroupViews.{is_in_group, seen_below, count_after};
ghost use Rattle.css_tree.specs.GroupViews.{nothing_seen as nothing_seen_yet, AreBefore, AreAll};

use std::alloc::{AllocError, Global};
use std::marker::Model;

/// Members of a group: how many, and the last of them.
#[derive(Clone, Copy, Drop)]
pub(crate) struct Seen {
    /// How many there are.
    pub(crate) count: u32,
    /// The index of the last, if there is one.
    pub(crate) last: Option<usize>,
}

/// Members, each in a group. Groups have numbers.
#[derive(Drop)]
pub(crate) struct Groups {
    /// The number of the group of each member.
    numbers: Vec<usize>,
    /// For each member, those of its group that are before it.
    before: Vec<Seen>,
    /// The members of each group.
    all: Vec<Seen>,
}

impl Model for Groups {
    ghost use Rattle.std.specs.Prelude.{◌≡◌, ℕ, List, length};
    ghost use Rattle.css_tree.specs.GroupViews.{AreBefore, AreAll};

    ghost Value = { List ℕ };

    ghost view = { λ groups. groups.numbers.items };

    ghost invariant = { λ groups.
        (length groups.before.items ≡ length groups.numbers.items)
        × AreBefore groups.numbers.items groups.before.items (length groups.numbers.items)
        × AreAll groups.numbers.items groups.all.items (length groups.numbers.items) };
}

/// Returns groups of which no member was seen.
fn nothing_seen(alloc: Global, count: usize) -> Result<Vec<Seen>, AllocError>
    ensures len { IfOk result (λ all. length all.items ≡ count) }
    ensures none { IfOk result (λ all. (number : ℕ)
        → slice_index_or all.items number nothing_seen_yet ≡ nothing_seen_yet) }
{
    let mut all = Vec::with_capacity(alloc, count)?;
    for number in 0..count {
        all.push(Seen {
            count: 0,
            last: None,
        })?;
    }
    Ok(all)
}

/// Appends for each member those of its group that are before it, and stores all of each group.
fn see_all(numbers: &[usize], before: &mut Vec<Seen>, all: &mut [Seen]) -> Result<(), AllocError>
    requires few { length numbers.now < 2 ^ 32 }
    requires within { All (λ number. number < length all.old) numbers.now }
    requires empty { before.old.items ≡ [] }
    requires none { AreAll numbers.now all.old 0 }
    ensures len { OnOk result (length before.new.items ≡ length numbers.now) }
    ensures before { OnOk result (AreBefore numbers.now before.new.items (length numbers.now)) }
    ensures all { OnOk result (AreAll numbers.now all.new (length numbers.now)) }
{
    for i in 0..numbers.len() {
        let number = numbers[i];
        let seen = all[number];
        before.push(seen)?;
        all[number] = Seen {
            count: seen.count + 1,
            last: Some(i),
        };
    }
    Ok(())
}

impl Groups {
    /// Returns the groups of members with these numbers, which are less than `groups`.
    pub(crate) fn new(
        alloc: Global,
        numbers: Vec<usize>,
        groups: usize,
    ) -> Result<Groups, AllocError>
        requires few { length numbers.items < 2 ^ 32 }
        requires within { All (λ number. number < groups) numbers.items }
        ensures { IfOk result (λ made. made ≡ numbers.items) }
    {
        let mut before = Vec::with_capacity(alloc, numbers.len())?;
        let mut all = nothing_seen(alloc, groups)?;
        see_all(numbers.as_slice(), &mut before, all.as_mut_slice())?;
        Ok(Groups {
            numbers,
            before,
            all,
        })
    }

    /// Returns the number of the group of the member at an index.
    pub(crate) fn number(&self, index: usize) -> usize
        requires { index < length self.now }
        ensures { slice_get self.now index ≡ Some result }
    {
        self.numbers[index]
    }

    /// Returns the number of members before the one at an index that are of its group, and the last
    /// of them.
    pub(crate) fn before(&self, index: usize) -> Seen
        requires { index < length self.now }
        ensures seen { (number : ℕ) → slice_get self.now index ≡ Some number
            → result ≡ seen_below self.now number index }
        ensures earlier { IfSome result.last (λ last. last < index) }
    {
        self.before[index]
    }

    /// Returns the number of members of a group.
    pub(crate) fn count(&self, number: usize) -> u32
        ensures { result ≡ count_below (is_in_group self.now number) (length self.now) }
    {
        match self.all.get(number) {
            Some(seen) => seen.count,
            None => 0,
        }
    }

    /// Returns the number of members after the one at an index that are of its group.
    pub(crate) fn after(&self, index: usize) -> u32
        requires { index < length self.now }
        ensures { (number : ℕ) → slice_get self.now index ≡ Some number
            → result ≡ count_after self.now number index }
    {
        let count = self.count(self.numbers[index]);
        count - (self.before[index].count + 1)
    }
}
