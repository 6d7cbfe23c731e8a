//! At-rules with rules in their blocks, by their names.
ghost use Rattle.std.specs.Prelude.{◌≡◌, map};
ghost use Rattle.css_clean.specs.Groups.{group_name, has_frames as has_frames_of, has_name as has_name_of};
ghost use Rattle.css_clean.specs.Groups.{is_called as is_called_by, group_of as group_of_name};

use clean_values::checks::is_one_of;
use css_syntax::tokens::spells;

/// An at-rule with rules in its block.
#[derive(Clone, Copy, Debug, PartialEq)]
pub enum Group {
    /// `@media`, with a condition.
    Media,
    /// `@supports`, with a condition.
    Supports,
    /// `@container`, with a condition.
    Container,
    /// `@layer`, with a name.
    Layer,
    /// `@keyframes`, with a name, and with frames in place of rules.
    Keyframes,
}

/// Returns the name of the at-rule.
pub(crate) fn name_of(group: Group) -> &'static str
    ensures { result.now ≡ group_name group }
{
    match group {
        Group::Media => "media",
        Group::Supports => "supports",
        Group::Container => "container",
        Group::Layer => "layer",
        Group::Keyframes => "keyframes",
    }
}

/// Whether the rules in its block are frames.
pub(crate) fn has_frames(group: Group) -> bool
    ensures { result ≡ has_frames_of group }
{
    match group {
        Group::Keyframes => true,
        Group::Media | Group::Supports | Group::Container | Group::Layer => false,
    }
}

/// Whether it has a name of its own, and no condition.
pub(crate) fn has_name(group: Group) -> bool
    ensures { result ≡ has_name_of group }
{
    match group {
        Group::Layer | Group::Keyframes => true,
        Group::Media | Group::Supports | Group::Container => false,
    }
}

/// Whether a name is this one, which is listed after `@`.
fn is_called(listed: &[&str], one: &str, at: &str, name: &[u8]) -> bool
    ensures { result ≡ is_called_by (map (λ word. word.now) listed.now) one.now at.now name.now }
{
    spells(one.as_bytes(), name) && is_one_of(listed, at.as_bytes())
}

/// Returns which at-rule a name is of: `@media`, or another that is listed.
pub(crate) fn group_of(listed: &[&str], name: &[u8]) -> Option<Group>
    ensures { result ≡ group_of_name (map (λ word. word.now) listed.now) name.now }
{
    if spells(b"media", name) {
        Some(Group::Media)
    } else if is_called(listed, "supports", "@supports", name) {
        Some(Group::Supports)
    } else if is_called(listed, "container", "@container", name) {
        Some(Group::Container)
    } else if is_called(listed, "layer", "@layer", name) {
        Some(Group::Layer)
    } else if is_called(listed, "keyframes", "@keyframes", name) {
        Some(Group::Keyframes)
    } else {
        None
    }
}
