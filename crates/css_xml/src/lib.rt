//! XML documents, such as drawings in SVG and pages in XHTML: tokens, what is well-formed, and elements with their places (XML 1.0,
//! Fifth Edition, and Namespaces in XML 1.0).
//!
//! Tokens and attributes are of the types that HTML has. A document type is skipped; one that declares entities or attributes is
//! refused. Time grows as the text, times at most 4,096 namespaces, and 1,000 declarations of them in scope.
#![tactic(auto)]

pub mod characters;
pub mod doctypes;
pub mod documents;
pub mod faults;
mod instructions;
pub mod nesting;
mod nodes;
pub mod references;
pub mod spaces;
mod tags;
pub mod tokenizer;
