//! Reading a value up to a property that has no computed value yet.
ghost use Rattle.std.specs.Prelude.{◌≡◌, IfOk, OnOk, [], ◌∷◌, ◌++◌, ◌⊎◌, length, nat_lt};
ghost use Rattle.css_values.specs.Resolution.{named};
ghost use Rattle.css_values.specs.Substitution.{is, nothing};
ghost use Rattle.css_values.specs.Pieces.{piece};
ghost use Rattle.css_values.specs.Views.{draft_of, piece_of, read_of, seen_of};
ghost use Rattle.css_values.specs.declared.readings.Step.TheVariants.{Moves};
ghost use Rattle.css_values.specs.internal.Readings.{Leaves, ReadsTo, Takes, TurnsTo};
ghost use Rattle.css_values.specs.internal.Readings.{piece_step, reading_of, step_of};

use crate::drafts::Draft;
use crate::pieces::{Piece, PieceAndRest, read_piece};
use crate::table::{Named, Seen, Table, find_named};
use std::alloc::{AllocError, Global};
use std::mem;

/// How deep fallbacks may nest: brackets nest less deep.
pub(crate) const DEEPEST_FALLBACK: usize = 66;

/// What reading a piece leads to.
#[derive(Clone, Copy)]
enum Step<'a> {
    /// The piece was appended.
    Moves,
    /// The property of this number has no computed value yet.
    Waits(usize),
    /// This fallback is read.
    Enters(&'a str),
}

/// What is to be read after a fallback.
#[derive(Drop)]
pub(crate) struct Outer<'a> {
    /// What was put together before it.
    pub draft: Draft,
    /// The rest after the reference.
    pub rest: &'a str,
}

/// A value that is being read.
#[derive(Drop)]
pub(crate) struct Reading<'a> {
    /// The number of its property.
    pub number: usize,
    /// What was put together of the value, or of the fallback that is read.
    pub draft: Draft,
    /// What is left to read of it.
    pub rest: &'a str,
    /// What is to be read after the fallbacks, from the outermost.
    pub outer: Vec<Outer<'a>>,
}

/// Reads a piece. A fallback is read only if it is not nested too deep.
fn read_step<'a>(
    alloc: Global,
    limit: usize,
    table: &Table<'_>,
    seen: Seen<'_>,
    draft: &mut Draft,
    nests: bool,
    piece: Piece<'a>,
) -> Result<Step<'a>, AllocError>
    ensures step { IfOk result (λ step. piece_step limit nests (named table.now (seen_of seen.entry))
        (draft_of draft.old) (piece_of piece.entry) ≡ step_of step (draft_of draft.new)) }
    ensures stays { IfOk result (λ step. step ≡ Moves ⊎ (draft.new ≡ draft.old)) }
{
    match piece {
        Piece::Plain(token) => draft.add_written(limit, token)?,
        Piece::Broken => draft.fail(),
        Piece::Reference(name, fallback) => match find_named(alloc, table, seen, name)? {
            Named::Bad => draft.fail(),
            Named::Unknown(number) => return Ok(Step::Waits(number)),
            Named::Found(value) => draft.add(limit, &value.text, value.last, true)?,
            Named::Absent => match fallback {
                Some(inner) if nests => return Ok(Step::Enters(inner)),
                _ => draft.fail(),
            },
        },
    }
    Ok(Step::Moves)
}

/// What a turn of reading leads to.
#[derive(Clone, Copy)]
pub(crate) enum Turn {
    /// More is to be read.
    GoesOn,
    /// All was read.
    Ends,
    /// The property of this number has no computed value yet.
    Waits(usize),
}

impl<'a> Reading<'a> {
    /// Returns the value of the property of this number, of which nothing is read.
    pub(crate) fn new(alloc: Global, number: usize, text: &'a str) -> Reading<'a>
        ensures number { result.number ≡ number }
        ensures reading { reading_of result
            ≡ record { so_far = is nothing; rest = text.now; outer = [] } }
    {
        Reading {
            number,
            draft: Draft::new(alloc),
            rest: text,
            outer: Vec::new(alloc),
        }
    }

    /// Ends the fallback that is read. Returns whether there was one.
    fn leave(&mut self, limit: usize) -> Result<bool, AllocError>
        ensures number { self.new.number ≡ self.old.number }
        ensures left { IfOk result (λ found. Leaves limit (reading_of self.old) found (reading_of self.new)) }
    {
        let Some(outer) = self.outer.pop() else {
            return Ok(false);
        };
        let inner = mem::replace(&mut self.draft, outer.draft);
        self.rest = outer.rest;
        self.draft.add_fallback(limit, &inner)?;
        Ok(true)
    }

    /// Reads a fallback, and then the rest.
    fn enter(&mut self, alloc: Global, inner: &'a str, rest: &'a str) -> Result<(), AllocError>
        ensures number { self.new.number ≡ self.old.number }
        ensures entered { OnOk result (reading_of self.new ≡ record {
          so_far = is nothing;
          rest = inner.now;
          outer = (reading_of self.old).outer ++ ((reading_of self.old).so_far, rest.now) ∷ [];
        }) }
    {
        let draft = mem::replace(&mut self.draft, Draft::new(alloc));
        self.outer.push(Outer { draft, rest })?;
        self.rest = inner;
        Ok(())
    }

    /// Reads a piece that is next.
    fn take(
        &mut self,
        alloc: Global,
        limit: usize,
        table: &Table<'_>,
        seen: Seen<'_>,
        read: PieceAndRest<'a>,
    ) -> Result<Turn, AllocError>
        ensures number { self.new.number ≡ self.old.number }
        ensures taken { IfOk result (λ turn. Takes
            (piece_step limit (nat_lt (length (reading_of self.old).outer) 65)
            (named table.now (seen_of seen.entry)) (reading_of self.old).so_far (read_of read.entry).0)
            (read_of read.entry).1 (reading_of self.old) turn (reading_of self.new)) }
    {
        let nests = self.outer.len() < DEEPEST_FALLBACK - 1;
        match read_step(
            alloc,
            limit,
            table,
            seen,
            &mut self.draft,
            nests,
            read.piece,
        )? {
            Step::Moves => {
                self.rest = read.rest;
                Ok(Turn::GoesOn)
            }
            Step::Waits(number) => Ok(Turn::Waits(number)),
            Step::Enters(inner) => {
                self.enter(alloc, inner, read.rest)?;
                Ok(Turn::GoesOn)
            }
        }
    }

    /// Reads the next piece, or ends a fallback.
    fn turn(
        &mut self,
        alloc: Global,
        limit: usize,
        table: &Table<'_>,
        seen: Seen<'_>,
    ) -> Result<Turn, AllocError>
        ensures number { self.new.number ≡ self.old.number }
        ensures turned { IfOk result (λ turn. TurnsTo limit table.now (seen_of seen.entry)
            (reading_of self.old) turn (reading_of self.new)) }
    {
        let Some(read) = read_piece(self.rest) else {
            let goes_on = self.leave(limit)?;
            return Ok(if goes_on { Turn::GoesOn } else { Turn::Ends });
        };
        let turn = self.take(alloc, limit, table, seen, read)?;
        Ok(turn)
    }

    /// Reads on, up to a property that has no computed value yet, whose number is returned, or up to
    /// the end.
    pub(crate) fn read_on(
        &mut self,
        alloc: Global,
        limit: usize,
        table: &Table<'_>,
        seen: Seen<'_>,
    ) -> Result<Option<usize>, AllocError>
        ensures number { self.new.number ≡ self.old.number }
        ensures read { IfOk result (λ found. ReadsTo limit table.now (seen_of seen.entry)
            (reading_of self.old) found (reading_of self.new)) }
    {
        'turns: loop {
            match self.turn(alloc, limit, table, seen)? {
                Turn::GoesOn => {}
                Turn::Ends => return Ok(None),
                Turn::Waits(number) => return Ok(Some(number)),
            }
        }
    }
}
