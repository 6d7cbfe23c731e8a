//! How a document reads the names of selectors.

ghost use Rattle.std.specs.Prelude.{◌≡◌, IfOk, map};
ghost use Rattle.css_sheet.specs.SheetRuleViews.{sheet_rule_of};
ghost use Rattle.css_tree.specs.Html.{html_selector};

use css_selectors::Selector;
use css_sheet::SheetRule;
use css_tree::html::{HtmlMode, html_selector};
use std::alloc::{AllocError, Global};

/// How a document reads the names of selectors.
#[derive(Clone, Copy, Debug, PartialEq)]
pub enum DocumentKind {
    /// As they are written.
    AsWritten,
    /// As an HTML document in this mode does.
    Html(HtmlMode),
}

/// The selectors of rules as an HTML document in this mode reads them.
pub fn html_rule_selectors<'s>(
    alloc: Global,
    mode: HtmlMode,
    rules: &'s [SheetRule<'_>],
) -> Result<Vec<Selector<'s>>, AllocError>
    ensures { IfOk result (λ read. read.items
        ≡ map (λ rule. html_selector mode rule.selector) (map sheet_rule_of rules.now)) }
{
    let mut read = Vec::with_capacity(alloc, rules.len())?;
    for rule in rules {
        read.push(html_selector(alloc, mode, &rule.selector)?)?;
    }
    Ok(read)
}
