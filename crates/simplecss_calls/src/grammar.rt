//! By which grammar a call reads selectors.

ghost use Rattle.std.specs.Prelude.{◌≡◌, option_map};
ghost use Rattle.simplecss_calls.specs.Grammars.{document_kind_of, grammar_of, list_grammar_of};

use call_answers::answer::CallError;
use css_tree::html::HtmlMode;
use kept_lists::ListGrammar;
use page_calls::modern::DocumentKind;

/// By which grammar a call reads selectors.
#[derive(Clone, Copy, Debug, PartialEq)]
pub enum Grammar {
    /// That of modern CSS, whose names a document reads in this way.
    Modern(DocumentKind),
    /// That of the port: CSS 2.1, as the Rust crate reads it.
    Port,
}

impl Grammar {
    ghost use Rattle.std.specs.Prelude.{◌≡◌, MatchResult, Some, None};
    ghost use Rattle.simplecss_calls.specs.Grammars.{grammar_of};
    ghost use Rattle.call_answers.specs.declared.answer.CallError.TheVariants.{Refused};

    /// The grammar of a number, or the refusal.
    pub fn from_number(number: usize) -> Result<Grammar, CallError>
        ensures { MatchResult result (λ grammar. grammar_of number ≡ Some grammar)
            (λ error. (error ≡ Refused) × (grammar_of number ≡ None)) }
    {
        match number {
            0 => Ok(Grammar::Modern(DocumentKind::AsWritten)),
            1 => Ok(Grammar::Modern(DocumentKind::Html(HtmlMode::NoQuirks))),
            2 => Ok(Grammar::Modern(DocumentKind::Html(HtmlMode::Quirks))),
            3 => Ok(Grammar::Port),
            _ => Err(CallError::Refused),
        }
    }
}

/// By which grammar a list is read, by its number.
pub fn list_grammar(number: usize) -> Option<ListGrammar>
    ensures { result ≡ option_map list_grammar_of (grammar_of number) }
{
    match Grammar::from_number(number) {
        Ok(Grammar::Modern(_)) => Some(ListGrammar::Modern),
        Ok(Grammar::Port) => Some(ListGrammar::Port),
        Err(_) => None,
    }
}

/// How a document reads the names of selectors, by the number of a modern grammar.
pub fn document_kind(number: usize) -> Option<DocumentKind>
    ensures { result ≡ document_kind_of (grammar_of number) }
{
    match Grammar::from_number(number) {
        Ok(Grammar::Modern(kind)) => Some(kind),
        _ => None,
    }
}
