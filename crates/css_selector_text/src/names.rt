//! What a caller declares for the texts that it reads.
ghost use Rattle.std.specs.Prelude.{◌≡◌};
ghost use Rattle.css_selector_text.specs.NameViews.{names_of};
ghost use Rattle.css_selector_text.specs.Names.{number_of as number_of_prefix};

/// A prefix that stands for a namespace.
#[derive(Clone, Copy)]
pub struct Prefix<'a> {
    /// The prefix. Case matters.
    pub name: &'a str,
    /// The number of its namespace, or 0: then it is the prefix of no namespace.
    pub number: usize,
}

/// The caller's own names, which are read besides those that are known, and its namespaces. The names have
/// no meaning but that a pseudo-class without an argument is a state of elements. Their case is ignored.
///
/// A namespace is a number, of which `Element::is_in_namespace` is asked. The number of no namespace is 0.
#[derive(Clone, Copy)]
pub struct Names<'a> {
    /// Pseudo-classes without an argument.
    pub states: &'a [&'a str],
    /// Pseudo-classes with an argument.
    pub functions: &'a [&'a str],
    /// Pseudo-elements without an argument.
    pub elements: &'a [&'a str],
    /// Pseudo-elements with an argument.
    pub element_functions: &'a [&'a str],
    /// The default namespace, if there is one.
    pub default_namespace: Option<usize>,
    /// The prefixes. Of those with the same name the last counts.
    pub prefixes: &'a [Prefix<'a>],
}

/// Nothing is declared.
pub const NO_NAMES: Names<'static> = Names {
    states: &[],
    functions: &[],
    elements: &[],
    element_functions: &[],
    default_namespace: None,
    prefixes: &[],
};

/// The number of a namespace that is not known: a type or attribute selector in it is unsupported.
pub const UNKNOWN_NAMESPACE: usize = usize::MAX;

/// Returns the number of the namespace of a prefix, if it is declared.
pub fn number_of(names: &Names<'_>, prefix: &str) -> Option<usize>
    ensures { result ≡ number_of_prefix (names_of names.now) prefix.now }
{
    let mut found = None;
    let mut rest = names.prefixes;
    'prefixes: while let [one, more @ ..] = rest {
        if one.name == prefix {
            found = Some(one.number);
        }
        rest = more;
    }
    found
}
