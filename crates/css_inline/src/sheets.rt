//! The statements of sheets, and their rules: which may be written into attributes, and which stay.

use crate::families::{ALL, Numbers, families, family_number};
use crate::known::{between, is_known};
use crate::traits::{Traits, any_element, is_one_of, traits_of, widened};
use css_selectors::{NO_NAMES, Selector, Why};
use css_syntax::printing::ends_lone;
use css_syntax::quality::is_good;
use css_syntax::{
    AtRule, Declaration, Declarations, Fault, Item, Prelude, RuleSet, Statement, Statements, Token,
    TokenKind, Tokenizer,
};
use std::alloc::{AllocError, Global};

/// At-rules that have no style rules.
const HARMLESS: &[&str] = &[
    "charset",
    "import",
    "namespace",
    "font-face",
    "page",
    "keyframes",
    "-webkit-keyframes",
    "-moz-keyframes",
    "-o-keyframes",
    "viewport",
    "-ms-viewport",
    "-o-viewport",
    "property",
    "counter-style",
    "font-feature-values",
    "font-palette-values",
    "color-profile",
    "view-transition",
    "position-try",
];

/// Group rules, whose blocks have style rules.
const GROUPS: &[&str] = &[
    "media",
    "supports",
    "layer",
    "container",
    "document",
    "-moz-document",
];

/// How many group rules the rules in them are in at most.
const DEEPEST: usize = 16;

/// A declaration of a rule.
#[derive(Clone, Copy)]
pub(crate) struct Stated<'a> {
    /// The declaration.
    pub(crate) declaration: Declaration<'a>,
    /// The number of its property.
    pub(crate) property: usize,
    /// The number of the family of its property.
    pub(crate) family: usize,
    /// Whether its value may go back to what other declarations say.
    pub(crate) goes_back: bool,
    /// Whether every browser knows its value.
    pub(crate) is_known: bool,
}

/// A statement of a sheet.
#[derive(Clone, Copy)]
pub(crate) struct SheetStatement<'a> {
    /// Its text.
    pub(crate) text: &'a str,
    /// The number of its sheet.
    pub(crate) sheet: usize,
    /// Whether it stays on every page.
    pub(crate) stays: bool,
    /// Whether it stays on pages where it matches nothing, since mail clients add what it matches.
    pub(crate) is_of_client: bool,
}

/// A rule: one selector with the declarations of its block.
#[derive(Clone, Copy)]
pub(crate) struct Rule {
    /// The number of its statement.
    pub(crate) statement: usize,
    /// Where its declarations begin.
    pub(crate) from: usize,
    /// Where they end.
    pub(crate) to: usize,
    /// Whether its declarations are written into attributes.
    pub(crate) is_written: bool,
    /// Whether it may say anything of the elements that it matches.
    pub(crate) says_anything: bool,
    /// Whether its selector asks the attribute `style`.
    pub(crate) asks_style: bool,
    /// Whether it may be in a layer.
    pub(crate) is_layered: bool,
}

/// A rule with its selector, which matches all that the rule does in some state of the page.
#[derive(Drop)]
struct FoundRule<'a> {
    selector: Selector<'a>,
    /// The counts of the specificity.
    counts: [usize; 3],
    rule: Rule,
}

/// The declarations of a block.
#[derive(Clone, Copy)]
struct Block {
    from: usize,
    to: usize,
    /// Whether each of its declarations may be written somewhere else.
    is_plain: bool,
    /// Whether it has rules.
    has_rules: bool,
}

/// Where a rule set is.
#[derive(Clone, Copy)]
struct Place {
    /// The number of its statement.
    statement: usize,
    /// Whether it may be written into attributes.
    may_go: bool,
    /// Whether it may be in a layer.
    is_layered: bool,
}

/// The block of a group rule that is to be read.
#[derive(Clone, Copy)]
struct Group<'a> {
    text: &'a str,
    /// How many group rules it is in, with its own.
    depth: usize,
    /// Whether one of them is a layer.
    is_layered: bool,
}

/// What selectors of a rule set are written, and what stays of them.
#[derive(Clone, Copy)]
struct Outcome {
    stays: bool,
    is_of_client: bool,
}

/// The statements of sheets, and their rules.
#[derive(Drop)]
pub(crate) struct Sheets<'a> {
    pub(crate) statements: Vec<SheetStatement<'a>>,
    /// The declarations of all rules.
    pub(crate) stated: Vec<Stated<'a>>,
    found: Vec<FoundRule<'a>>,
    families: Numbers,
    properties: Numbers,
}

/// The rules of sheets in the order of the cascade, apart from their selectors.
#[derive(Drop)]
pub(crate) struct Rules<'a> {
    pub(crate) selectors: Vec<Selector<'a>>,
    pub(crate) rules: Vec<Rule>,
    pub(crate) statements: Vec<SheetStatement<'a>>,
    pub(crate) stated: Vec<Stated<'a>>,
    /// How many families there are.
    pub(crate) families: usize,
    /// How many properties there are.
    pub(crate) properties: usize,
}

/// Whether a token may be the word `revert` or `revert-layer`.
fn may_go_back(token: &Token<'_>) -> bool {
    let word = between(token.from, token.rest);
    let is_back = word.eq_ignore_ascii_case(b"revert")
        || word.eq_ignore_ascii_case(b"revert-layer");
    token.kind == TokenKind::Ident && (is_back || word.contains(&b'\\'))
}

/// Whether a value, or a whole attribute, may go back to what other declarations say.
pub(crate) fn goes_back(text: &str) -> bool {
    for token in Tokenizer::new(text.as_bytes()) {
        if may_go_back(&token) {
            return true;
        }
    }
    false
}

/// Whether a declaration may be written somewhere else.
fn is_plain(declaration: &Declaration<'_>) -> bool {
    declaration.closed && !ends_lone(declaration.value.as_bytes())
}

/// Whether a sheet declares namespaces for its selectors.
fn has_namespaces(text: &str) -> bool {
    for part in Statements::new(text) {
        if let Statement::AtRule(rule) = part.statement {
            if rule.name.eq_ignore_ascii_case("namespace")
                || rule.name.as_bytes().contains(&b'\\')
            {
                return true;
            }
        }
    }
    false
}

/// Whether every browser knows a selector.
fn is_known_selector(selector: &Selector<'_>) -> bool {
    let is_read = selector.pseudo_element().is_some() || selector.is_supported();
    is_read && traits_of(selector).is_known
}

/// Whether every browser knows the selectors of a rule.
fn are_known(selectors: &[Selector<'_>]) -> bool {
    for selector in selectors {
        if !is_known_selector(selector) {
            return false;
        }
    }
    true
}

/// Returns the selectors of a rule, if all are selectors.
fn selectors_of<'a>(
    alloc: Global,
    prelude: &Prelude<'a>,
) -> Result<Option<Vec<Selector<'a>>>, AllocError> {
    if !is_good(prelude.quality) {
        return Ok(None);
    }
    match Selector::read_list_in(alloc, prelude.text, &NO_NAMES) {
        Ok(all) => {
            let mut selectors = Vec::with_capacity(alloc, all.len())?;
            for listed in all {
                selectors.push(listed.selector)?;
            }
            Ok(Some(selectors))
        }
        Err(refusal) if refusal.why == Why::Memory => Err(AllocError),
        Err(_) => Ok(None),
    }
}

impl<'a> Sheets<'a> {
    /// Returns no statements.
    pub(crate) fn new(alloc: Global) -> Result<Sheets<'a>, AllocError> {
        Ok(Sheets {
            statements: Vec::new(alloc),
            stated: Vec::new(alloc),
            found: Vec::new(alloc),
            families: families(alloc)?,
            properties: Numbers::new(alloc),
        })
    }

    /// Appends a declaration.
    fn push_stated(
        &mut self,
        alloc: Global,
        declaration: Declaration<'a>,
    ) -> Result<(), AllocError> {
        let family = family_number(alloc, &mut self.families, declaration.name)?;
        let property = self.properties.number(alloc, declaration.name)?;
        self.stated.push(Stated {
            declaration,
            property,
            family,
            goes_back: goes_back(declaration.value),
            is_known: is_known(declaration.value),
        })?;
        Ok(())
    }

    /// Reads the declarations of a block.
    fn read_block(&mut self, alloc: Global, text: &'a str) -> Result<Block, AllocError> {
        let from = self.stated.len();
        let (mut is_plain_block, mut has_rules) = (true, false);
        for part in Declarations::of_block(text) {
            match part.item {
                Item::Declaration(declaration) => {
                    is_plain_block = is_plain_block && is_plain(&declaration);
                    self.push_stated(alloc, declaration)?;
                }
                Item::AtRule(_) | Item::Skipped(Fault::NestedRule) => has_rules = true,
                Item::Skipped(_) => {}
            }
        }
        Ok(Block {
            from,
            to: self.stated.len(),
            is_plain: is_plain_block && !has_rules,
            has_rules,
        })
    }

    /// Appends a rule that may say anything of all elements.
    fn push_anything(&mut self, alloc: Global, statement: usize) -> Result<(), AllocError> {
        let end = self.stated.len();
        self.found.push(FoundRule {
            selector: any_element(alloc)?,
            counts: [0, 0, 0],
            rule: Rule {
                statement,
                from: end,
                to: end,
                is_written: false,
                says_anything: true,
                asks_style: false,
                is_layered: true,
            },
        })?;
        Ok(())
    }

    /// Appends a rule with a selector, of which this is known. Returns whether it stays.
    fn push_rule(
        &mut self,
        alloc: Global,
        selector: Selector<'a>,
        traits: Traits,
        block: &Block,
        place: Place,
    ) -> Result<bool, AllocError> {
        let counts = selector.specificity();
        let is_written = place.may_go && traits.is_still;
        let selector = if is_written {
            selector
        } else {
            widened(alloc, selector)?
        };
        self.found.push(FoundRule {
            selector,
            counts: [
                counts.ids as usize,
                counts.classes as usize,
                counts.names as usize,
            ],
            rule: Rule {
                statement: place.statement,
                from: block.from,
                to: block.to,
                is_written,
                says_anything: false,
                asks_style: traits.asks_style,
                is_layered: place.is_layered,
            },
        })?;
        Ok(!is_written)
    }

    /// Appends the rules of selectors.
    fn push_rules(
        &mut self,
        alloc: Global,
        selectors: Vec<Selector<'a>>,
        block: &Block,
        place: Place,
    ) -> Result<Outcome, AllocError> {
        let mut outcome = Outcome {
            stays: !place.may_go,
            is_of_client: false,
        };
        for selector in selectors {
            let traits = traits_of(&selector);
            if selector.pseudo_element().is_some() {
                outcome.stays = true;
            } else if selector.is_supported() {
                let stays = self.push_rule(alloc, selector, traits, block, place)?;
                outcome.stays = outcome.stays || stays;
                outcome.is_of_client = outcome.is_of_client || traits.is_of_client;
            } else {
                self.push_anything(alloc, place.statement)?;
                outcome.stays = true;
            }
        }
        Ok(outcome)
    }

    /// Reads a rule set.
    fn read_rule_set(
        &mut self,
        alloc: Global,
        rule: &RuleSet<'a>,
        place: Place,
    ) -> Result<Outcome, AllocError> {
        let block = self.read_block(alloc, rule.block.text)?;
        if block.has_rules {
            self.push_anything(alloc, place.statement)?;
        }
        match selectors_of(alloc, &rule.prelude)? {
            Some(selectors) => {
                let is_whole = block.is_plain && rule.block.closed;
                let place = Place {
                    may_go: place.may_go && is_whole && are_known(selectors.as_slice()),
                    ..place
                };
                self.push_rules(alloc, selectors, &block, place)
            }
            None => Ok(Outcome {
                stays: true,
                is_of_client: false,
            }),
        }
    }

    /// Reads an at-rule that is no group rule.
    fn read_other(
        &mut self,
        alloc: Global,
        rule: &AtRule<'a>,
        statement: usize,
    ) -> Result<(), AllocError> {
        if rule.block.is_some() && !is_one_of(HARMLESS, rule.name) {
            self.push_anything(alloc, statement)?;
        }
        Ok(())
    }

    /// Reads a statement of a group rule, whose own block is to be read then if it is one in fewer than `depth`
    /// others.
    fn read_inner(
        &mut self,
        alloc: Global,
        inner: &Statement<'a>,
        place: Place,
        depth: usize,
        waiting: &mut Vec<Group<'a>>,
    ) -> Result<(), AllocError> {
        match inner {
            Statement::RuleSet(rule) => {
                let _ = self.read_rule_set(alloc, rule, place)?;
                Ok(())
            }
            Statement::AtRule(rule) => match &rule.block {
                Some(block) if is_one_of(GROUPS, rule.name) && depth < DEEPEST => {
                    waiting.push(Group {
                        text: block.text,
                        depth: depth.saturating_add(1),
                        is_layered: place.is_layered || rule.name.eq_ignore_ascii_case("layer"),
                    })?;
                    Ok(())
                }
                _ => self.read_other(alloc, rule, place.statement),
            },
            Statement::Skipped(_) => Ok(()),
        }
    }

    /// Reads an at-rule with this text.
    fn read_at_rule(
        &mut self,
        alloc: Global,
        text: &'a str,
        rule: &AtRule<'a>,
        statement: usize,
    ) -> Result<(), AllocError> {
        let place = Place {
            statement,
            may_go: false,
            is_layered: false,
        };
        let mut waiting = Vec::new(alloc);
        self.read_inner(alloc, &Statement::AtRule(*rule), place, 0, &mut waiting)?;
        for _ in 0..text.len() {
            let Some(group) = waiting.pop() else {
                break;
            };
            let place = Place {
                is_layered: group.is_layered,
                ..place
            };
            for part in Statements::of_block(group.text) {
                self.read_inner(alloc, &part.statement, place, group.depth, &mut waiting)?;
            }
        }
        Ok(())
    }

    /// Appends the statements of a sheet with this number, whose rules may be written into attributes or not.
    pub(crate) fn read(
        &mut self,
        alloc: Global,
        text: &'a str,
        sheet: usize,
        may_go: bool,
    ) -> Result<(), AllocError> {
        let may_go = may_go && !has_namespaces(text);
        for part in Statements::new(text) {
            let statement = self.statements.len();
            let mut outcome = Outcome {
                stays: true,
                is_of_client: false,
            };
            match part.statement {
                Statement::RuleSet(rule) => {
                    let is_layered = false;
                    let place = Place {
                        statement,
                        may_go,
                        is_layered,
                    };
                    outcome = self.read_rule_set(alloc, &rule, place)?;
                }
                Statement::AtRule(rule) => {
                    self.read_at_rule(alloc, part.text, &rule, statement)?;
                }
                Statement::Skipped(_) => {}
            }
            self.statements.push(SheetStatement {
                text: part.text,
                sheet,
                stays: outcome.stays,
                is_of_client: outcome.is_of_client,
            })?;
        }
        Ok(())
    }

    /// Appends a sheet of which nothing is known.
    pub(crate) fn read_unknown(&mut self, alloc: Global) -> Result<(), AllocError> {
        let statement = self.statements.len();
        self.push_anything(alloc, statement)
    }

    /// Returns the rules in the order of the cascade.
    pub(crate) fn into_rules(self, alloc: Global) -> Result<Rules<'a>, AllocError> {
        let mut found = self.found;
        found.sort_by_cached_key(|each: &FoundRule| -> [usize; 3] { each.counts })?;
        let mut selectors = Vec::with_capacity(alloc, found.len())?;
        let mut rules = Vec::with_capacity(alloc, found.len())?;
        for each in found {
            selectors.push(each.selector)?;
            rules.push(each.rule)?;
        }
        Ok(Rules {
            selectors,
            rules,
            statements: self.statements,
            stated: self.stated,
            families: self.families.count(),
            properties: self.properties.count(),
        })
    }
}

impl<'a> Rules<'a> {
    /// Returns the declarations of a rule.
    pub(crate) fn stated_by(&self, rule: &Rule) -> &[Stated<'a>] {
        let to = rule.to.min(self.stated.len());
        let from = rule.from.min(to);
        &self.stated[from..to]
    }
}

/// Whether a family is that of all.
pub(crate) fn is_all(family: usize) -> bool {
    family == ALL
}
