//! Pages as objects.

ghost use Rattle.std.specs.Prelude.{◌≡◌, MatchResult};
ghost use Rattle.call_answers.specs.Calls.{passed_of};
ghost use Rattle.call_answers.specs.Outcomes.{numbers_outcome};
ghost use Rattle.kept_pages.specs.Pages.{IsNoPage, IsSelected, question_of};
ghost use Rattle.kept_pages.specs.Sources.{page_source};

use crate::arrays::PageArrays;
use crate::kept::{Asked, Kept, Read};
use crate::read_page::Selection;
use call_answers::answer::CallError;
use call_answers::elements::PassedTree;
use page_calls::modern::DocumentKind;
use std::alloc::Global;
use std::marker::Model;
use std::mem::replace;

/// A page that is kept with a copy of its tree: in clauses, the tree and how its document reads selectors.
pub struct KeptPage {
    kind: DocumentKind,
    kept: Option<Kept>,
    alloc: Global,
}

impl Model for KeptPage {
    ghost use Rattle.kept_pages.specs.Objects.{IsOpen, kept_source};
    ghost use Rattle.kept_pages.specs.Sources.{PageSource};

    ghost Value = { PageSource };

    ghost view = { λ p. kept_source p.kind p.kept };

    ghost invariant = { λ p. IsOpen p.kind p.kept };
}

impl KeptPage {
    /// Keeps a copy of a tree, which it reads and counts.
    pub fn new(
        alloc: Global,
        kind: DocumentKind,
        tree: PassedTree<'_>,
    ) -> Result<KeptPage, CallError>
        ensures { let source = page_source kind (passed_of tree.entry) in
            MatchResult result (λ page. page ≡ source) (IsNoPage source) }
    {
        let arrays = Box::new(alloc, PageArrays::copy(alloc, tree)?)?;
        let (kept, answer) = Kept::of(arrays).visit(Read { alloc, kind });
        match answer {
            Ok(()) => Ok(KeptPage {
                kind,
                kept: Some(kept),
                alloc,
            }),
            Err(error) => {
                kept.close(alloc);
                Err(error)
            }
        }
    }

    /// The numbers of the elements of a range that a list of selectors matches.
    pub fn select(&mut self, asked: Selection<'_>) -> Result<Vec<usize>, CallError>
        ensures kept { self.new ≡ self.old }
        ensures answer { IsSelected (question_of asked.entry) self.old (numbers_outcome result) }
    {
        let alloc = self.alloc;
        let Some(kept) = replace(&mut self.kept, None) else {
            unreachable!()
        };
        let (kept, answer) = kept.visit(Asked { alloc, asked });
        if let Some(other) = replace(&mut self.kept, Some(kept)) {
            other.close(alloc);
        }
        match answer {
            Some(answer) => answer,
            None => unreachable!(),
        }
    }
}

impl Drop for KeptPage {
    fn drop(self) {
        let KeptPage {
            kind: _kind,
            kept,
            alloc,
        } = self;
        if let Some(kept) = kept {
            kept.close(alloc);
        }
    }
}
