//! Queries as objects.

ghost use Rattle.std.specs.Prelude.{◌≡◌, MatchResult};
ghost use Rattle.kept_queries.specs.Queries.{IsNoQuery};
ghost use Rattle.kept_queries.specs.Sources.{source_of};
ghost use Rattle.kept_queries.specs.Visits.{IsAnsweredBy};

use crate::arrays::{PassedQuery, QueryArrays};
use crate::kept::{Asked, Kept, Read};
use crate::read_query::Question;
use call_answers::answer::CallError;
use std::alloc::Global;
use std::marker::Model;
use std::mem::replace;

/// A query that is kept with a copy of what it is made of: in clauses, that.
pub struct KeptQuery {
    kept: Option<Kept>,
    alloc: Global,
}

impl Model for KeptQuery {
    ghost use Rattle.kept_queries.specs.Objects.{IsOpen, kept_source};
    ghost use Rattle.kept_queries.specs.Sources.{QuerySource};

    ghost Value = { QuerySource };

    ghost view = { λ q. kept_source q.kept };

    ghost invariant = { λ q. IsOpen q.kept };
}

impl KeptQuery {
    /// Keeps a copy of what is passed, which it reads.
    pub fn new(alloc: Global, passed: PassedQuery<'_>) -> Result<KeptQuery, CallError>
        ensures { let source = source_of passed.entry in
            MatchResult result (λ query. query ≡ source) (IsNoQuery source) }
    {
        let arrays = Box::new(alloc, QueryArrays::copy(alloc, passed)?)?;
        let (kept, answer) = Kept::of(arrays).visit(Read { alloc });
        match answer {
            Ok(()) => Ok(KeptQuery {
                kept: Some(kept),
                alloc,
            }),
            Err(error) => {
                kept.close(alloc);
                Err(error)
            }
        }
    }

    /// The answer to a question.
    pub fn ask<Q: Question + Drop>(&mut self, question: Q) -> Q::Answer
        ensures kept { self.new ≡ self.old }
        ensures answer { IsAnsweredBy (Q.is_answer question) self.old result }
    {
        let alloc = self.alloc;
        let Some(kept) = replace(&mut self.kept, None) else {
            unreachable!()
        };
        let (kept, answer) = kept.visit(Asked { alloc, question });
        if let Some(other) = replace(&mut self.kept, Some(kept)) {
            other.close(alloc);
        }
        match answer {
            Some(answer) => answer,
            None => unreachable!(),
        }
    }
}

impl Drop for KeptQuery {
    fn drop(self) {
        let KeptQuery { kept, alloc } = self;
        if let Some(kept) = kept {
            kept.close(alloc);
        }
    }
}
