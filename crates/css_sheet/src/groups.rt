//! Group rules: at-rules whose blocks have statements.
ghost use Rattle.std.specs.Prelude.{◌≡◌, option_map};
ghost use Rattle.css_syntax.specs.Views.{at_rule_of, statement_of};
ghost use Rattle.css_sheet.specs.SheetItems.{is_group_name as is_group_name_of, group_with};
ghost use Rattle.css_sheet.specs.SheetItems.{group_of as group_of_statement};
ghost use Rattle.css_sheet.specs.SheetItems.{group_keyword as group_keyword_of};
ghost use Rattle.css_sheet.specs.GroupViews.{group_text};

use css_syntax::texts::spells;
use css_syntax::{AtRule, Statement};

/// A group rule, with the text of its block.
#[derive(Clone, Copy)]
pub struct Group<'a> {
    /// Its name.
    pub name: &'a str,
    /// What is between its name and its block.
    pub prelude: &'a str,
    /// The text of its block.
    pub text: &'a str,
}

/// The keyword that the name of an at-rule is, if it has statements in its block.
#[tactic(auto, unfolding(crate::specs::SheetItems::group_keyword))]
pub(crate) fn group_keyword(name: &str) -> Option<&'static str>
    ensures { group_keyword_of name.now ≡ option_map (λ keyword. keyword.now) result }
{
    if spells("media", name) {
        Some("media")
    } else if spells("supports", name) {
        Some("supports")
    } else if spells("layer", name) {
        Some("layer")
    } else if spells("container", name) {
        Some("container")
    } else if spells("document", name) {
        Some("document")
    } else if spells("-moz-document", name) {
        Some("-moz-document")
    } else {
        None
    }
}

/// Whether an at-rule of this name has statements in its block.
fn is_group_name(name: &str) -> bool
    ensures { result ≡ is_group_name_of name.now }
{
    group_keyword(name).is_some()
}

/// The group rule that an at-rule is, if it is one with a block.
fn group_of_rule<'a>(rule: &AtRule<'a>) -> Option<Group<'a>>
    ensures { group_with (at_rule_of rule.now) (at_rule_of rule.now).block
        ≡ option_map group_text result }
{
    match rule.block {
        Some(block) if is_group_name(rule.name) => Some(Group {
            name: rule.name,
            prelude: rule.prelude.text,
            text: block.text,
        }),
        _ => None,
    }
}

/// The group rule that a statement is, if it is one with a block.
pub fn group_of<'a>(statement: &Statement<'a>) -> Option<Group<'a>>
    ensures { group_of_statement (statement_of statement.now) ≡ option_map group_text result }
{
    match statement {
        Statement::AtRule(rule) => group_of_rule(rule),
        _ => None,
    }
}
