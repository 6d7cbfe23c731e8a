//! A copy of what a query is made of.

ghost use Rattle.std.specs.Prelude.{◌≡◌, IfOk};
ghost use Rattle.simplecss_calls.specs.WinnerNumbers.{sheets_of};
ghost use Rattle.kept_queries.specs.Sources.{made_of, sheets_in, source_of};

use call_answers::elements::PassedTree;
use kept_pages::PageArrays;
use page_calls::modern::DocumentKind;
use simplecss_calls::contents::OwnTexts;
use simplecss_calls::winners::Sheets;
use std::alloc::{AllocError, Global};

/// What a query is made of, as a caller passes it.
#[derive(Clone, Copy)]
pub struct PassedQuery<'t> {
    /// How the document reads the names of selectors.
    pub kind: DocumentKind,
    /// The tree.
    pub tree: PassedTree<'t>,
    /// The style sheets.
    pub sheets: Sheets<'t>,
    /// The most declarations that the rules of the sheets may hold.
    pub limit: usize,
    /// The declarations of elements that are in no rule.
    pub own: OwnTexts<'t>,
}

/// The texts of style sheets, and what a caller passes of each.
#[derive(Drop)]
struct SheetArrays {
    texts: Vec<u8>,
    ends: Vec<usize>,
    origins: Vec<usize>,
    groups: Vec<u8>,
    group_ends: Vec<usize>,
    around: Vec<usize>,
    depths: Vec<usize>,
    namespaces: Vec<u8>,
    namespace_ends: Vec<usize>,
}

/// What a query is made of.
#[derive(Drop)]
pub struct QueryArrays {
    kind: DocumentKind,
    page: PageArrays,
    sheets: SheetArrays,
    limit: usize,
    own: Vec<u8>,
    own_ends: Vec<usize>,
}

impl SheetArrays {
    /// A copy of sheets that are passed.
    fn copy(alloc: Global, sheets: Sheets<'_>) -> Result<SheetArrays, AllocError>
        ensures { IfOk result (λ arrays. sheets_in arrays ≡ sheets_of sheets.entry) }
    {
        Ok(SheetArrays {
            texts: Vec::from_slice(alloc, sheets.texts)?,
            ends: Vec::from_slice(alloc, sheets.ends)?,
            origins: Vec::from_slice(alloc, sheets.origins)?,
            groups: Vec::from_slice(alloc, sheets.groups)?,
            group_ends: Vec::from_slice(alloc, sheets.group_ends)?,
            around: Vec::from_slice(alloc, sheets.around)?,
            depths: Vec::from_slice(alloc, sheets.depths)?,
            namespaces: Vec::from_slice(alloc, sheets.namespaces)?,
            namespace_ends: Vec::from_slice(alloc, sheets.namespace_ends)?,
        })
    }

    /// The sheets, as they are passed.
    fn passed(&self) -> Sheets<'_>
        ensures { sheets_of result ≡ sheets_in self.now }
    {
        Sheets {
            texts: self.texts.as_slice(),
            ends: self.ends.as_slice(),
            origins: self.origins.as_slice(),
            groups: self.groups.as_slice(),
            group_ends: self.group_ends.as_slice(),
            around: self.around.as_slice(),
            depths: self.depths.as_slice(),
            namespaces: self.namespaces.as_slice(),
            namespace_ends: self.namespace_ends.as_slice(),
        }
    }
}

impl QueryArrays {
    /// A copy of what is passed.
    pub fn copy(alloc: Global, passed: PassedQuery<'_>) -> Result<QueryArrays, AllocError>
        ensures { IfOk result (λ arrays. made_of arrays ≡ source_of passed.entry) }
    {
        Ok(QueryArrays {
            kind: passed.kind,
            page: PageArrays::copy(alloc, passed.tree)?,
            sheets: SheetArrays::copy(alloc, passed.sheets)?,
            limit: passed.limit,
            own: Vec::from_slice(alloc, passed.own.texts)?,
            own_ends: Vec::from_slice(alloc, passed.own.ends)?,
        })
    }

    /// The same, as it is passed.
    pub fn passed(&self) -> PassedQuery<'_>
        ensures { source_of result ≡ made_of self.now }
    {
        PassedQuery {
            kind: self.kind,
            tree: self.page.passed(),
            sheets: self.sheets.passed(),
            limit: self.limit,
            own: OwnTexts {
                texts: self.own.as_slice(),
                ends: self.own_ends.as_slice(),
            },
        }
    }
}
