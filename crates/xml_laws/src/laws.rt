//! Laws: contracts of functions that do nothing.
ghost use Rattle.xml_laws.specs.Locality.{TokensAreTheDocument, MarkupIsLocal, EditsAreLocal};

/// The tokens of a document are the document, one after another.
pub fn tokens_are_the_document()
    ensures { TokensAreTheDocument }
{}

/// What is read of a document before markup is read of each text that has other markup from there on.
pub fn markup_is_local()
    ensures { MarkupIsLocal }
{}

/// Markup put in place of other markup changes no other token of the document.
pub fn edits_are_local()
    ensures { EditsAreLocal }
{}
