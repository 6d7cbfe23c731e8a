//! Laws: contracts of functions that do nothing.
ghost use Rattle.std.specs.Prelude.{◌≡◌, ℕ, List};
ghost use Rattle.css_html.specs.Tokens.{Driver, tokens, texts_of};
ghost use Rattle.css_html.specs.Locality.{AttributesAreLocal, ClosedTagsAreLocal, RawTextsAreLocal, TagsAreLocal};
ghost use Rattle.css_html.specs.Locality.{ReplacedTagsAreLocal, StyleElementsAreRead, TextsPutInAreLocal};
ghost use Rattle.css_html.specs.Locality.{EditsAreLocal, TextsTakenOutAreLocal};
ghost use Rattle.css_html.specs.Locality.{EditsBetweenAreLocal, StyleElementsAreLocal, StyleElementsOutAreLocal};
ghost use Rattle.css_html.specs.Locality.{WholeTagsAreLocal};
ghost use Rattle.css_html.specs.Locality.{AttributesBeforeAreLocal, ChangedAttributesAreLocal};
ghost use Rattle.css_html.specs.Written.{PuttingInChangesNoMore, RawTextIsItself, WrittenReadsBack};

/// The tokens of a page are the page, one after another, whatever decides in which mode each is read.
pub fn tokens_are_the_page()
    ensures { (drive : Driver) (text : List ℕ) → texts_of (tokens drive text) ≡ text }
{}

/// An attribute that is written is read back, whatever follows it: its name, its value, and the rest.
pub fn written_attributes_read_back()
    ensures { WrittenReadsBack }
{}

/// An attribute that is put in after the name of a tag changes no more than the attributes of that tag.
pub fn attributes_change_no_more()
    ensures { PuttingInChangesNoMore }
{}

/// A text without an end tag of its element, put before one, is all that is before it.
pub fn raw_text_is_itself()
    ensures { RawTextIsItself }
{}

/// What is read of a page before a start tag is read of each page that has another start tag from there
/// on: the same tokens, with the same texts.
pub fn tags_are_local()
    ensures { TagsAreLocal }
{}

/// An attribute that is put in after the name of a start tag changes no other token of the page.
pub fn attributes_are_local()
    ensures { AttributesAreLocal }
{}

/// A text that is one start tag, put in place of a start tag that was read, changes no other token of the page.
pub fn whole_tags_are_local()
    ensures { WholeTagsAreLocal }
{}

/// Attributes that are read before a place in a tag are read so whatever attribute, or end of the tag, follows.
pub fn attributes_before_are_local()
    ensures { AttributesBeforeAreLocal }
{}

/// An attribute that is put in, replaced or taken out anywhere in a start tag changes no other token of the page.
pub fn changed_attributes_are_local()
    ensures { ChangedAttributesAreLocal }
{}

/// A start tag that is closed is read in the same way whatever follows it.
pub fn closed_tags_are_local()
    ensures { ClosedTagsAreLocal }
{}

/// A raw text put in place of another, with no end tag of its element in it, changes no other token of the
/// page.
pub fn raw_texts_are_local()
    ensures { RawTextsAreLocal }
{}

/// A start tag put in place of another changes no other token of the page, if it leaves the same rest.
pub fn replaced_tags_are_local()
    ensures { ReplacedTagsAreLocal }
{}

/// A text that begins with a start tag, put in before a start tag, changes no other token of the page.
pub fn texts_put_in_are_local()
    ensures { TextsPutInAreLocal }
{}

/// Such a text taken out changes no other token of the page.
pub fn texts_taken_out_are_local()
    ensures { TextsTakenOutAreLocal }
{}

/// A `style` element is three tokens, whatever follows it.
pub fn style_elements_are_read()
    ensures { StyleElementsAreRead }
{}

/// Texts put in, taken out or replaced between any two tokens change no other token of the page.
pub fn edits_between_are_local()
    ensures { EditsBetweenAreLocal }
{}

/// A `style` element put in between any two tokens changes no other token of the page.
pub fn style_elements_are_local()
    ensures { StyleElementsAreLocal }
{}

/// A `style` element that is taken out changes no other token of the page.
pub fn style_elements_out_are_local()
    ensures { StyleElementsOutAreLocal }
{}

/// With any number of edits, each of which is like one of these, no other token of the page is changed.
pub fn edits_are_local()
    ensures { EditsAreLocal }
{}
