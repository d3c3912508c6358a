//! The rows of the numbers that were seen: each row is found by a number that has it, so that no row is kept.

ghost use Rattle.std.specs.Prelude.{◌≡◌, ◌==◌, ℕ, [], None, Some, get_or, slice_get, IfOk, IfSome, OnOk, OnErr, if◌then◌else◌};
ghost use Rattle.path_classes.specs.Classes.{KeepRows};
ghost use Rattle.path_classes.specs.ClassCounts.{is_met, IsPlacePut};
ghost use Rattle.path_classes.specs.NumberedRows.{row_at, rows_met, HasRow, AreMet};

use crate::numbered_files::NumberedFiles;
use crate::row_hints::RowHints;
use std::alloc::{AllocError, Global};

/// For each row the first number seen that has it, and for each number seen the place of its row.
#[derive(Drop)]
pub(crate) struct MetRows {
    pub(crate) places: Vec<Option<usize>>,
    pub(crate) numbers: Vec<usize>,
    hints: RowHints,
}

fn entry(table: &[Option<usize>], number: usize) -> Option<usize>
    ensures { result ≡ get_or table.now number None }
{
    match table.get(number) {
        Some(entry) => *entry,
        None => None,
    }
}

/// Puts a value into a table, which grows if it has no room.
fn put(table: &mut Vec<Option<usize>>, number: usize, value: usize) -> Result<(), AllocError>
    ensures put { OnOk result ((n : ℕ) → get_or table.new.items n None ≡ (if n == number then Some value else get_or table.old.items n None)) }
    ensures same { OnErr result ((n : ℕ) → get_or table.new.items n None ≡ get_or table.old.items n None) }
{
    while table.len() <= number {
        table.push(None)?;
    }
    table[number] = Some(value);
    Ok(())
}

impl MetRows {
    pub fn new(alloc: Global) -> MetRows
        ensures places { result.places.items ≡ [] }
        ensures numbers { result.numbers.items ≡ [] }
    {
        MetRows {
            places: Vec::new(alloc),
            numbers: Vec::new(alloc),
            hints: RowHints::new(alloc),
        }
    }

    /// Gives each number that is seen from now on a place of its own, even if another one has its row.
    pub fn keep_apart(&mut self)
        ensures places { self.new.places ≡ self.old.places }
        ensures numbers { self.new.numbers ≡ self.old.numbers }
    {
        self.hints.keep_apart();
    }

    /// Returns a number that has the row at a place, if there is one.
    pub fn number(&self, place: usize) -> Option<usize>
        ensures { result ≡ slice_get self.now.numbers.items place }
    {
        match self.numbers.get(place) {
            Some(number) => Some(*number),
            None => None,
        }
    }

    /// Tells whether a number was seen.
    pub fn is_met(&self, number: usize) -> bool
        ensures { result ≡ is_met self.now.places.items number }
    {
        entry(&self.places, number).is_some()
    }

    /// Returns the place of a row that a number has, if a hint leads there.
    fn same_place(
        &self,
        files: &NumberedFiles<'_>,
        hash: Option<u64>,
        number: usize,
    ) -> Option<usize>
        ensures { IfSome result (λ place. slice_get (rows_met files.now self.now.numbers.items) place ≡ Some (row_at files.now number)) }
    {
        let place = self.hints.place(hash)?;
        let met = self.number(place)?;
        if files.is_same_row(number, met) {
            Some(place)
        } else {
            None
        }
    }

    /// Returns a place for the row of a number that was not seen: that of a number with the same row, or a new one.
    fn new_place(&mut self, files: &NumberedFiles<'_>, number: usize) -> Result<usize, AllocError>
        requires row { HasRow files.now.rows files.now.classes number }
        requires met { AreMet files.now self.old.places.items self.old.numbers.items }
        ensures here { IfOk result (λ place. slice_get (rows_met files.now self.new.numbers.items) place ≡ Some (row_at files.now number)) }
        ensures met { AreMet files.now self.new.places.items self.new.numbers.items }
        ensures keep { KeepRows (rows_met files.now self.old.numbers.items) (rows_met files.now self.new.numbers.items) }
        ensures same { self.new.places ≡ self.old.places }
    {
        let hash = self.hints.hash(files, number)?;
        if let Some(place) = self.same_place(files, hash, number) {
            return Ok(place);
        }
        let place = self.numbers.len();
        self.numbers.push(number)?;
        self.hints.put(hash, place)?;
        Ok(place)
    }

    /// Returns the place of the row of a number, which counts as seen from now on.
    pub fn place_of(
        &mut self,
        files: &NumberedFiles<'_>,
        number: usize,
    ) -> Result<usize, AllocError>
        requires row { HasRow files.now.rows files.now.classes number }
        requires met { AreMet files.now self.old.places.items self.old.numbers.items }
        ensures here { IfOk result (λ place. slice_get (rows_met files.now self.new.numbers.items) place ≡ Some (row_at files.now number)) }
        ensures met { AreMet files.now self.new.places.items self.new.numbers.items }
        ensures keep { KeepRows (rows_met files.now self.old.numbers.items) (rows_met files.now self.new.numbers.items) }
        ensures put { IfOk result (λ place. IsPlacePut self.old.places.items number place self.new.places.items) }
    {
        if let Some(place) = entry(&self.places, number) {
            return Ok(place);
        }
        let place = self.new_place(files, number)?;
        put(&mut self.places, number, place)?;
        Ok(place)
    }
}
