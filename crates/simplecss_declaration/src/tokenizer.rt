//! The tokenizer of declarations.
use super::declarations::Declaration;
use super::reader::take_declaration;
use css_text::stream::Stream;
use std::iter::FusedIterator;

/// An iterator over the declarations of a text, such as that of a block or of a `style` attribute,
/// in order, up to the first that is broken. After them it always returns `None`, and does not
/// report what is wrong with the broken one. Nothing is allocated.
#[derive(Drop)]
pub struct DeclarationTokenizer<'a> {
    /// The text, and the offset up to which it was read.
    stream: Stream<'a>,
}

impl<'a> From<&'a str> for DeclarationTokenizer<'a> {
    ghost use Rattle.simplecss_declaration.specs.DeclarationTokenizers.{Begins};

    ghost from_gives = { λ text t. Begins text.now t };

    /// Returns an iterator over the text's declarations.
    fn from(text: &'a str) -> DeclarationTokenizer<'a> {
        DeclarationTokenizer {
            stream: Stream::new(text),
        }
    }
}

impl<'a> DeclarationTokenizer<'a> {
    ghost use Rattle.std.specs.Prelude.{◌≡◌, drop};
    ghost use Rattle.std.specs.Str.{IsCharBoundary};
    ghost use Rattle.simplecss_declaration.specs.DeclarationTokenizers.{whole_text, offset_in};
    ghost use Rattle.simplecss_declaration.specs.DeclarationTokenizers.{left_of};

    /// Returns the offset up to which the text was read, in bytes from its start. It is at most the
    /// text's length and is a character boundary.
    ///
    /// After a declaration, this is where what follows it begins, after any semicolons and blanks.
    /// After `None` it is the length of the text. To find where a broken declaration begins, keep
    /// the offset after each `Some`:
    ///
    /// <!-- from crates/example_library/src/statements.rt -->
    /// ```rust
    /// let mut declarations = DeclarationTokenizer::from(text);
    /// let mut end = 0;
    /// // Each declaration has at least one byte.
    /// for _ in 0..text.len() {
    ///     if declarations.next().is_none() {
    ///         // Now `declarations.pos()` is the length of the text.
    ///         break;
    ///     }
    ///     end = declarations.pos();
    /// }
    /// ```
    #[inline(always)]
    pub fn pos(&self) -> usize
        ensures offset { result ≡ offset_in self.now }
        ensures rest { drop result (whole_text self.now) ≡ left_of self.now }
        ensures boundary { IsCharBoundary (whole_text self.now) result }
    {
        self.stream.pos()
    }
}

impl<'a> Iterator for DeclarationTokenizer<'a> {
    ghost use Rattle.std.specs.Iterator.{item_count};
    ghost use Rattle.simplecss_declaration.specs.DeclarationTokenizers.{still_to_come, GivesDeclaration};

    type Item = Declaration<'a>;

    ghost next_gives = { GivesDeclaration };

    ghost remaining = { item_count still_to_come };

    /// Returns the next declaration. Its name and value are slices of what the call consumes.
    #[inline(always)]
    fn next(&mut self) -> Option<Declaration<'a>> {
        match take_declaration(&mut self.stream) {
            Some(declaration) => Some(declaration),
            None => {
                self.stream.jump_to_end();
                None
            }
        }
    }
}

impl FusedIterator for DeclarationTokenizer<'_> {}
