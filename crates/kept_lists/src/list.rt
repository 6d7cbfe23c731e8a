//! Lists of selectors as objects.

ghost use Rattle.std.specs.Prelude.{◌≡◌, MatchResult};
ghost use Rattle.kept_lists.specs.Lists.{made_of, IsNoList};
ghost use Rattle.kept_lists.specs.Visits.{IsAnswered};

use crate::kept::{Asked, Kept, Read};
use crate::read_list::{ListError, ListGrammar, Question};
use std::alloc::Global;
use std::marker::Model;
use std::mem::replace;

/// A list of selectors that is kept with its text: in clauses, the text and its grammar.
pub struct KeptList {
    grammar: ListGrammar,
    kept: Option<Kept>,
    alloc: Global,
}

impl Model for KeptList {
    ghost use Rattle.kept_lists.specs.Lists.{ListSource};
    ghost use Rattle.kept_lists.specs.Objects.{IsOpen, kept_source};

    ghost Value = { ListSource };

    ghost view = { λ l. kept_source l.grammar l.kept };

    ghost invariant = { λ l. IsOpen l.grammar l.kept };
}

impl KeptList {
    /// Keeps a copy of a text and the selectors of the list that it is.
    pub fn new(alloc: Global, grammar: ListGrammar, text: &str) -> Result<KeptList, ListError>
        ensures { let source = made_of grammar text.now in
            MatchResult result (λ list. list ≡ source) (IsNoList source) }
    {
        let text = Box::new(alloc, String::from_str(alloc, text)?)?;
        let (kept, answer) = Kept::of(text).visit(Read { alloc, grammar });
        match answer {
            Ok(()) => Ok(KeptList {
                grammar,
                kept: Some(kept),
                alloc,
            }),
            Err(error) => {
                kept.close(alloc);
                Err(error)
            }
        }
    }

    /// The answer to a question.
    pub fn ask<Q: Question + Drop>(&mut self, question: Q) -> Q::Answer
        ensures kept { self.new ≡ self.old }
        ensures answer { IsAnswered (Q.is_answer question) self.old result }
    {
        let alloc = self.alloc;
        let Some(kept) = replace(&mut self.kept, None) else {
            unreachable!()
        };
        let (kept, answer) = kept.visit(Asked { alloc, question });
        if let Some(other) = replace(&mut self.kept, Some(kept)) {
            other.close(alloc);
        }
        match answer {
            Some(answer) => answer,
            None => unreachable!(),
        }
    }
}

impl Drop for KeptList {
    fn drop(self) {
        let KeptList {
            grammar: _grammar,
            kept,
            alloc,
        } = self;
        if let Some(kept) = kept {
            kept.close(alloc);
        }
    }
}
