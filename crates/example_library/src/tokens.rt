//! Loops and chains over the tokenizers, as a user writes them, with no measure, no invariant and
//! no proof file.

ghost use Rattle.std.specs.Prelude.{◌≡◌, length, map, count_by, IfOk, IfSome, IfNone, IsTrue};
ghost use Rattle.std.specs.Prelude.{IsErr, All, false};
ghost use Rattle.simplecss.specs.ThisEdition.{this_edition};
ghost use Rattle.simplecss.specs.Declarations.{declarations};
ghost use Rattle.simplecss.specs.TokenSequences.{tokens_of};
ghost use Rattle.simplecss.specs.DeclarationViews.{declaration_of};
ghost use Rattle.simplecss.specs.TokenViews.{item_view};

use simplecss::{Declaration, DeclarationTokenizer, Error, SelectorToken, SelectorTokenizer};
use std::alloc::{AllocError, Global};

/// Returns the number of the text's important declarations.
pub fn important_count(text: &str) -> usize {
    let mut count = 0_usize;
    for declaration in DeclarationTokenizer::from(text) {
        if declaration.important {
            count = count.saturating_add(1);
        }
    }
    count
}

/// Returns the same number by a chain.
pub fn important_count_by_chain(text: &str) -> usize
    ensures { result ≡ count_by (λ p. p.important) (declarations this_edition text.now) }
{
    DeclarationTokenizer::from(text)
        .filter(|declaration| declaration.important)
        .count()
}

/// Returns the number of the text's declarations.
pub fn declaration_count(text: &str) -> usize
    ensures { result ≡ length (declarations this_edition text.now) }
{
    DeclarationTokenizer::from(text).count()
}

/// Returns the text's declarations.
pub fn all_declarations<'a>(
    alloc: Global,
    text: &'a str,
) -> Result<Vec<Declaration<'a>>, AllocError>
    ensures { IfOk result (λ all. map declaration_of all.items ≡ declarations this_edition text.now) }
{
    DeclarationTokenizer::from(text).collect(alloc)
}

/// Returns the first important declaration of the text.
pub fn first_important<'a>(text: &'a str) -> Option<Declaration<'a>>
    ensures some { IfSome result (λ declaration. IsTrue declaration.important) }
    ensures none { IfNone result
        (All (λ p. p.important ≡ false) (declarations this_edition text.now)) }
{
    DeclarationTokenizer::from(text).find(|declaration| declaration.important)
}

/// Returns the number of errors among the tokens of the text's selector.
pub fn error_count(text: &str) -> usize {
    let mut count = 0_usize;
    for item in SelectorTokenizer::from(text) {
        if item.is_err() {
            count = count.saturating_add(1);
        }
    }
    count
}

/// Returns the number of tokens and errors of the text's selector.
pub fn item_count(text: &str) -> usize
    ensures { result ≡ length (tokens_of this_edition text.now) }
{
    SelectorTokenizer::from(text).count()
}

/// Returns the tokens and errors of the text's selector.
pub fn all_items<'a>(
    alloc: Global,
    text: &'a str,
) -> Result<Vec<Result<SelectorToken<'a>, Error>>, AllocError>
    ensures { IfOk result (λ all. map item_view all.items ≡ tokens_of this_edition text.now) }
{
    SelectorTokenizer::from(text).collect(alloc)
}

/// Returns the first error of the text's selector.
pub fn first_error<'a>(text: &'a str) -> Option<Result<SelectorToken<'a>, Error>>
    ensures { IfSome result IsErr }
{
    SelectorTokenizer::from(text).find(|item| item.is_err())
}
