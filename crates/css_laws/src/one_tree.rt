//! Selectors of CSS 2.1 and modern ones on one element.
ghost use Rattle.std.specs.Prelude.{◌↔◌, List};
ghost use Rattle.simplecss_grammar.specs.Components.{Component};
ghost use Rattle.simplecss_selector.specs.Placements.{HasPlacement};
ghost use Rattle.simplecss_selector.specs.Shapes.{IsSelector};
ghost use Rattle.css_selectors.specs.Meanings.{Matches};
ghost use Rattle.css_laws.specs.Converted.{converted};
ghost use Rattle.css_laws.specs.OneTree.{AreOne};

use css_selectors::Element;
use simplecss_selector::Element as PortElement;

/// A selector of CSS 2.1 matches an element exactly if the modern one that it is converted to does. The
/// element may be a node of two trees: of one that selectors of CSS 2.1 see, and of a document. Both must
/// answer alike what the selector asks, on the element, on its ancestors and on their earlier siblings.
///
/// `components_law` of `simplecss_selector` says of each selector's components that `IsSelector` holds.
pub fn converted_law<P: PortElement, E: Element>()
    ensures { (components : List Component) (m : E.Node) (n : P.Node) → IsSelector components
        → AreOne E.document P.tree components m n
        → HasPlacement P.tree components n ↔ Matches E.document (converted components) m }
{}
