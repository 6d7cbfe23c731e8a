//! The state of a reader of sheets.
ghost use Rattle.std.specs.Prelude.{◌≤◌, ◌<◌, ◌^◌, length, vec_len};

/// A group rule that is open.
#[derive(Clone, Copy, Debug, PartialEq)]
pub struct Level<'a> {
    /// Its name, as written.
    pub name: &'a str,
    /// What is between its name and its block, as written.
    pub prelude: &'a str,
    /// The text after it.
    pub after: &'a str,
    /// The offset in the sheet at which the text after it ends.
    pub after_end: usize,
    /// Where it is in the sheet.
    pub places: Places,
    ghost within: { length after.now ≤ after_end },
    ghost few: { after_end < 2 ^ 63 },
}

/// Where an item or a group rule is: offsets in the sheet, in bytes.
#[derive(Clone, Copy, Debug, PartialEq)]
pub struct Places {
    /// The first byte.
    pub start: usize,
    /// The first byte of the prelude.
    pub prelude: usize,
    /// The first byte of the contents of the block, if the item has one.
    pub block: usize,
    /// The byte after these contents.
    pub block_end: usize,
    ghost start_short: { start < 2 ^ 63 },
    ghost prelude_short: { prelude < 2 ^ 63 },
    ghost block_within: { block ≤ block_end },
    ghost block_short: { block_end < 2 ^ 63 },
}

/// Reads the statements of a sheet, and those of the blocks of its group rules, in source order.
///
/// A group rule in 64 others is an item itself, with its block. A brace in a group rule that closes nothing
/// is skipped, as an item. No byte of the sheet is lost: see `SheetReader::new`.
#[derive(Drop)]
pub struct SheetReader<'a> {
    /// The group rules that are open, from the outermost.
    pub(crate) levels: Vec<Level<'a>>,
    /// What is left of the innermost.
    pub(crate) rest: &'a str,
    /// The offset in the sheet at which it ends.
    pub(crate) end: usize,
    /// Where the item is that was read last.
    pub(crate) places: Places,
    ghost within: { length rest.now ≤ end },
    ghost short: { end < 2 ^ 63 },
    ghost few: { vec_len levels ≤ 64 },
}
