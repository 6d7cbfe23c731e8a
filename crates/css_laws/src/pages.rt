//! Selectors of CSS 2.1 and modern ones on a page.
ghost use Rattle.std.specs.Prelude.{ℕ, ◌<◌, ◌↔◌, List, length};
ghost use Rattle.simplecss_grammar.specs.Components.{Component};
ghost use Rattle.simplecss_selector.specs.Placements.{HasPlacement};
ghost use Rattle.simplecss_selector.specs.Shapes.{IsSelector};
ghost use Rattle.simplecss_tree.specs.TreeNodes.{element_tree};
ghost use Rattle.css_selectors.specs.Meanings.{Matches};
ghost use Rattle.css_tree.specs.Pages.{Page, page_document};
ghost use Rattle.css_laws.specs.Converted.{converted};
ghost use Rattle.css_laws.specs.Pages.{IsMade, HaveOnlySpaces, AreShared};

/// On a page a selector of CSS 2.1 matches the elements that the modern one does to which it is converted.
/// The page's tree must be made by the calls of `css_elements`,
/// and no value of an attribute may have white space other than U+0020. Of the selector, `~=` must have a
/// word that is not empty, and `:lang()` one subtag.
pub fn page_law()
    ensures { (components : List Component) (page : Page) (i : ℕ) → IsSelector components
        → AreShared components → IsMade page.rows → HaveOnlySpaces page.rows
        → i < length page.rows → HasPlacement element_tree components (page.rows, i)
        ↔ Matches page_document (converted components) (page, i) }
{}
