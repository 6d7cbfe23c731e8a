//! The names of namespaces that a sheet declares.
ghost use Rattle.std.specs.Prelude.{◌≡◌, IfOk};
ghost use Rattle.std.specs.Cow.{cow_str_bytes};
ghost use Rattle.css_syntax.specs.Views.{statement_of};
ghost use Rattle.css_selector_text.specs.NameViews.{names_of, texts_of};
ghost use Rattle.css_selector_text.specs.Names.{no_names};
ghost use Rattle.css_sheet.specs.Imports.{rule_in_front};
ghost use Rattle.css_sheet.specs.Namespaces.{number_from, url_number, default_number, with_prefix, with_namespace};
ghost use Rattle.css_sheet.specs.Namespaces.{may_follow, begun_after, names_after, names_among, text_names};
ghost use Rattle.css_sheet.specs.Namespaces.{if_few as if_few_of};
ghost use Rattle.css_sheet.specs.NamespaceViews.{names_owned, names_declared};
ghost use Rattle.css_sheet.specs.internal.FoundViews.{found_namespace};
ghost use Rattle.css_sheet.specs.internal.FrontViews.{front_rule_of};

use crate::imports::{FrontRule, front_rule};
use crate::namespace_rules::{FoundNamespace, decode_url};
use css_selector_text::{NO_NAMES, Names, Prefix, UNKNOWN_NAMESPACE};
use css_syntax::statements::read_next;
use css_syntax::{Statement, decode};
use std::alloc::{AllocError, Global};
use std::borrow::CowStr;

/// How many prefixes a sheet may declare.
const MOST_PREFIXES: usize = 256;

/// How many namespaces may be known.
const MOST_KNOWN: usize = 1024;

/// A prefix that a sheet declares.
#[derive(Drop)]
pub(crate) struct OwnPrefix<'a> {
    /// The prefix.
    pub(crate) name: CowStr<'a>,
    /// The number of its namespace.
    pub(crate) number: usize,
}

/// The names of namespaces that a sheet declares. Made by [`SheetNamespaces::read`].
#[derive(Drop)]
pub struct SheetNamespaces<'a> {
    /// The number of the default namespace, if it is declared.
    pub(crate) default_namespace: Option<usize>,
    /// The prefixes. Of those with the same name the last counts.
    pub(crate) prefixes: Vec<OwnPrefix<'a>>,
}

/// The names of namespaces that a sheet declares, as [`Names`] has them. Made by
/// [`SheetNamespaces::declare`].
#[derive(Drop)]
pub struct DeclaredNamespaces<'n> {
    /// The number of the default namespace, if it is declared.
    pub(crate) default_namespace: Option<usize>,
    /// The prefixes.
    pub(crate) prefixes: Vec<Prefix<'n>>,
}

/// Returns these urls, or none if they are too many.
fn if_few<'k>(known: &'k [&'k str]) -> &'k [&'k str]
    ensures { texts_of result.now ≡ if_few_of (texts_of known.now) }
{
    if known.len() > MOST_KNOWN { &[] } else { known }
}

/// Returns the number of a url among these, of which the first has number 1.
fn number_among(known: &[&str], url: &str) -> usize
    ensures { result ≡ number_from 1 (texts_of known.now) url.now }
{
    let mut number: usize = 1;
    let mut rest = known;
    'urls: while let [one, more @ ..] = rest {
        if *one == url {
            return number;
        }
        number += 1;
        rest = more;
    }
    number
}

/// Returns the number of the namespace of a url.
fn number_of_url(known: &[&str], url: &str) -> usize
    ensures { result ≡ url_number (texts_of known.now) url.now }
{
    if known.is_empty() {
        UNKNOWN_NAMESPACE
    } else if url.is_empty() {
        0
    } else {
        number_among(known, url)
    }
}

/// Returns the number of the default namespace, if it has this url.
fn default_of(known: &[&str], url: &str) -> Option<usize>
    ensures { result ≡ default_number (texts_of known.now) url.now }
{
    if known.is_empty() {
        None
    } else {
        Some(number_of_url(known, url))
    }
}

impl<'n> DeclaredNamespaces<'n> {
    /// Returns these names of namespaces, and no other names.
    pub fn names(&self) -> Names<'_>
        ensures { names_of result ≡ names_declared self.now }
    {
        Names {
            default_namespace: self.default_namespace,
            prefixes: &self.prefixes,
            ..NO_NAMES
        }
    }
}

impl<'a> SheetNamespaces<'a> {
    /// Returns that nothing is declared. Allocates nothing.
    fn new(alloc: Global) -> SheetNamespaces<'a>
        ensures { names_owned result ≡ no_names }
    {
        SheetNamespaces {
            default_namespace: None,
            prefixes: Vec::new(alloc),
        }
    }

    /// Returns the same names, for `DeclaredNamespaces::names`. Fails only if an allocation fails.
    pub fn declare(&self, alloc: Global) -> Result<DeclaredNamespaces<'_>, AllocError>
        ensures { IfOk result (λ declared. names_declared declared ≡ names_owned self.now) }
    {
        let mut prefixes = Vec::with_capacity(alloc, self.prefixes.len())?;
        let mut rest = self.prefixes.as_slice();
        'prefixes: while let [one, more @ ..] = rest {
            prefixes.push(Prefix {
                name: one.name.as_str(),
                number: one.number,
            })?;
            rest = more;
        }
        Ok(DeclaredNamespaces {
            default_namespace: self.default_namespace,
            prefixes,
        })
    }

    /// Declares a prefix, if it is not one too many.
    fn push_prefix(&mut self, name: CowStr<'a>, number: usize) -> Result<(), AllocError>
        ensures { IfOk result (λ _. names_owned self.new
            ≡ with_prefix (names_owned self.old) (cow_str_bytes name.entry) number) }
    {
        if self.prefixes.len() < MOST_PREFIXES {
            self.prefixes.push(OwnPrefix { name, number })?;
        }
        Ok(())
    }

    /// Declares what a namespace rule does.
    fn push(
        &mut self,
        alloc: Global,
        known: &[&str],
        rule: FoundNamespace<'a>,
    ) -> Result<(), AllocError>
        ensures { IfOk result (λ _. names_owned self.new
            ≡ with_namespace (texts_of known.now) (names_owned self.old) (found_namespace rule.entry)) }
    {
        let url = decode_url(alloc, rule.url)?;
        match rule.prefix {
            None => {
                self.default_namespace = default_of(known, url.as_str());
                Ok(())
            }
            Some(prefix) => {
                let number = number_of_url(known, url.as_str());
                self.push_prefix(decode(alloc, prefix)?, number)
            }
        }
    }

    /// Returns what a statement is that these names are declared before.
    fn front_rule(
        &self,
        alloc: Global,
        statement: &Statement<'a>,
    ) -> Result<FrontRule<'a>, AllocError>
        ensures { IfOk result (λ found. front_rule_of found
            ≡ rule_in_front (names_owned self.now) 0 0 (statement_of statement.now)) }
    {
        let declared = self.declare(alloc)?;
        front_rule(alloc, &declared.names(), 0, 0, statement)
    }

    /// Declares what a rule does, if it is a namespace rule.
    fn push_rule(
        &mut self,
        alloc: Global,
        known: &[&str],
        rule: FrontRule<'a>,
    ) -> Result<(), AllocError>
        ensures { IfOk result (λ _. names_owned self.new
            ≡ names_after (texts_of known.now) (names_owned self.old) (front_rule_of rule.entry)) }
    {
        match rule {
            FrontRule::Namespace(one) => self.push(alloc, known, one),
            _ => Ok(()),
        }
    }

    /// Reads the names of namespaces that a sheet declares, where the namespaces of these urls are known.
    fn read_among(
        alloc: Global,
        text: &'a str,
        known: &[&str],
    ) -> Result<SheetNamespaces<'a>, AllocError>
        ensures { IfOk result (λ read. names_owned read ≡ names_among (texts_of known.now) text.now) }
    {
        let mut read = SheetNamespaces::new(alloc);
        let mut is_begun = false;
        let mut rest = text;
        'statements: while let Some(found) = read_next(rest, false) {
            let rule = read.front_rule(alloc, &found.part.statement)?;
            if !may_be_before(&rule, is_begun) {
                return Ok(read);
            }
            is_begun = is_begun_after(&rule, is_begun);
            read.push_rule(alloc, known, rule)?;
            rest = found.rest;
        }
        Ok(read)
    }

    /// Reads the names of namespaces that a sheet declares, where the namespaces of these urls are known.
    ///
    /// They are those of the `@namespace` rules that are in force: before these are no other valid rules but
    /// `@import` and `@layer` with names only, and that only before the first of either. A rule without a url
    /// is invalid, and so is one with a block. Of two rules with the same prefix the last counts. A rule set
    /// is valid by the prefixes that are declared before it. After 256 prefixes no other is declared.
    ///
    /// The number of a namespace is that of its url, of which the first has number 1, or that after the last,
    /// if it is not known; the empty url is of no namespace, which has number 0. If no url is given, or more
    /// than 1,024, prefixes are of a namespace that is not known, and there is no default namespace.
    ///
    /// The time is linear in what is before the first rule that ends this, but that for each statement there
    /// and for each prefix in it the prefixes so far are looked through, and for each url of a rule those that
    /// are known. Fails only if an allocation fails.
    pub fn read(
        alloc: Global,
        text: &'a str,
        known: &[&str],
    ) -> Result<SheetNamespaces<'a>, AllocError>
        ensures { IfOk result (λ read. names_owned read ≡ text_names (texts_of known.now) text.now) }
    {
        SheetNamespaces::read_among(alloc, text, if_few(known))
    }
}

/// Whether a namespace rule may follow a rule, before which an import or a namespace rule was or was not.
fn may_be_before(rule: &FrontRule<'_>, is_begun: bool) -> bool
    ensures { result ≡ may_follow is_begun (front_rule_of rule.now) }
{
    match rule {
        FrontRule::Import(_) | FrontRule::Namespace(_) | FrontRule::NoRule => true,
        FrontRule::LayerList => !is_begun,
        FrontRule::OtherRule => false,
    }
}

/// Whether an import or a namespace rule was there, after a rule.
fn is_begun_after(rule: &FrontRule<'_>, is_begun: bool) -> bool
    ensures { result ≡ begun_after is_begun (front_rule_of rule.now) }
{
    is_begun || matches!(rule, FrontRule::Import(_) | FrontRule::Namespace(_))
}
