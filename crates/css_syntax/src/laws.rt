//! Laws: contracts of functions that do nothing.
ghost use Rattle.std.specs.Prelude.{ℕ, Bool, List};
ghost use Rattle.css_syntax.specs.NothingLost.{LosesNoItem, LosesNoPart, LosesNoRulePart};
ghost use Rattle.css_syntax.specs.NothingLost.{LosesNoStatement};
ghost use Rattle.css_syntax.specs.Printing.{ItemsReadBack, ItemsReadBackWith, ListReadsBack};
ghost use Rattle.css_syntax.specs.DeclarationLists.{DeclarationText};
ghost use Rattle.css_syntax.specs.TokenLists.{tokens};
ghost use Rattle.css_syntax.specs.TokenViews.{AreTokensOf};

/// Every byte of a text is in an item, a statement or a part of a block, which may be skipped, or it is
/// between them: a space byte, in a comment, a semicolon between items, and in a sheet `<!--` or `-->`
/// between statements.
pub fn nothing_is_lost()
    ensures items { (in_block : Bool) (text : List ℕ) → LosesNoItem in_block text }
    ensures statements { (in_block : Bool) (text : List ℕ) → LosesNoStatement in_block text }
    ensures parts { (text : List ℕ) → LosesNoPart text }
    ensures rule_parts { (in_block : Bool) (text : List ℕ) → LosesNoRulePart in_block text }
{}

/// A declaration that was read is itself, if it is printed before any text and read again, unless
/// something of its value was open at the end of the text or its value ends in a lone backslash.
/// With another value that is whole it reads back, too. A printed list of declarations that read
/// back has them as its items.
pub fn printed_declarations_read_back()
    ensures each_item { (in_block : Bool) (text : List ℕ) → ItemsReadBack in_block text }
    ensures other_values { (in_block : Bool) (text : List ℕ) → ItemsReadBackWith in_block text }
    ensures lists { (declarations : List DeclarationText) → ListReadsBack declarations }
{}

/// The tokens of a text are the text, one after another.
pub fn tokens_are_the_text()
    ensures { (text : List ℕ) → AreTokensOf text (tokens text) }
{}
