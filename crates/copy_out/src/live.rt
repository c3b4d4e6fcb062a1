//! The live rows of a table as text.
ghost use Rattle.std.specs.Prelude.{◌≡◌, ◌<◌, ◌≤◌, ◌+◌, ◌++◌, ◌∷◌, [], List, false, true, length};
ghost use Rattle.std.specs.Prelude.{IfOk, OnOk};
ghost use Rattle.outside.specs.Outside.{Asked, IfTold, Names, Tells};
ghost use Rattle.heap_table_check.specs.Found.{IsQuiet};
ghost use Rattle.heap_table_check.specs.Files.{BelongTo, IsSoundHeapOf, files_of};
ghost use Rattle.heap_rows.specs.RowCursor.{IsAtRow, IsCursorOf, IsSameCursor, rows_ahead};
ghost use Rattle.heap_rows.specs.RowValues.{cell_lent};
ghost use Rattle.heap_rows.specs.Rows.{rows_of};
ghost use Rattle.heap_rows.specs.declared.rows.LiveRow.{LiveRow as Row};
ghost use Rattle.copy_out.specs.Fields.{FitsAs, cell_text};
ghost use Rattle.copy_out.specs.Lines.{unread_in};
ghost use Rattle.copy_out.specs.Live.{AreLeft, IsAdded, IsOver, copied_text, numbers_from, unread_values};

use crate::fields::{push_field, push_tab};
use crate::forms::{Form, form_of};
use case_file::{Case, Column};
use heap_rows::{CellRef, RowCursor};
use heap_table_check::SoundHeap;
use key_orders::Octets;
use outside::{Files, NoMemory};
use page_layout::MAX_ITEMS;
use rel_files::PageFault;
use std::alloc::Global;
use text_writer::TextWriter;

/// Rows as text, and how many of their values are compressed, which aren't read.
#[derive(Drop)]
pub struct CopyText {
    /// The rows, each its fields joined by tabs and ended by a line feed.
    pub text: Octets,
    /// The number of values that aren't read.
    pub unread: u64,
}

// The same while it grows.
#[derive(Drop)]
struct CopyWriter {
    text: TextWriter,
    unread: u64,
}

// So many numbers from 0 on.
fn numbers_below(alloc: Global, count: u16) -> Result<Vec<u16>, NoMemory>
    ensures { IfOk result (λ numbers. numbers.items ≡ numbers_from 0 count) }
{
    let mut numbers = Vec::new(alloc);
    for k in 0..count {
        numbers.push(k)?;
    }
    Ok(numbers)
}

// One more of what each takes one of so many bytes.
#[inline]
fn one_more(count: u64, bytes: u64) -> u64
    requires { count < bytes }
    ensures { result ≡ count + 1 }
{
    count + 1
}

impl CopyWriter {
    // The text of no rows.
    fn new(alloc: Global) -> CopyWriter
        ensures text { result.text ≡ [] }
        ensures unread { result.unread ≡ 0 }
    {
        CopyWriter {
            text: TextWriter::new(alloc),
            unread: 0,
        }
    }

    // Adds a field, and counts it where it isn't read. There are never more of these than bytes.
    fn add_field(&mut self, form: Form, cell: CellRef<'_>) -> Result<(), NoMemory>
        requires fits { FitsAs form (cell_lent cell) }
        requires counted { self.old.unread ≤ length self.old.text }
        ensures text { OnOk result (self.new.text ≡ self.old.text ++ cell_text form (cell_lent cell.entry)) }
        ensures unread { OnOk result (self.new.unread ≡ self.old.unread + unread_in (cell_lent cell.entry ∷ [])) }
        ensures counted { OnOk result (self.new.unread ≤ length self.new.text) }
    {
        match cell {
            CellRef::Held(_) => push_field(&mut self.text, form, cell),
            CellRef::Packed => {
                push_field(&mut self.text, form, cell)?;
                self.unread = one_more(self.unread, self.text.len());
                Ok(())
            }
        }
    }

    // Adds the row at which a cursor is.
    fn add_row(&mut self, columns: &[Column], cursor: &RowCursor<'_>) -> Result<(), NoMemory>
        requires over { IsOver columns.now cursor.now }
        requires at { IsAtRow cursor.now }
        requires counted { self.old.unread ≤ length self.old.text }
        ensures added { OnOk result ((names : Names) (row : Row) (rows : List Row) → IsCursorOf names cursor.now
            → rows_ahead names cursor.now ≡ row ∷ rows → IsAdded columns.now row.cells self.old self.new) }
        ensures counted { OnOk result (self.new.unread ≤ length self.new.text) }
    {
        for k in 0..columns.len() {
            let column = &columns[k];
            let cell = cursor.value(k);
            push_tab(&mut self.text, k)?;
            self.add_field(form_of(column.ctype), cell)?;
        }
        self.text.push(b'\n')?;
        Ok(())
    }

    // Adds the next row of a cursor, and goes past it; whether there is one.
    fn add_next<F: Files>(
        &mut self,
        files: &mut F,
        columns: &[Column],
        cursor: &mut RowCursor<'_>,
    ) -> Result<bool, PageFault>
        requires over { IsOver columns.now cursor.old }
        requires told { IfTold F.seen files.old (λ names. IsCursorOf names cursor.old) }
        requires counted { self.old.unread ≤ length self.old.text }
        ensures left { IfTold F.seen files.old (λ names. OnOk result ((all : List Row)
            → AreLeft columns.now all (rows_ahead names cursor.old) self.old
            → AreLeft columns.now all (rows_ahead names cursor.new) self.new)) }
        ensures next { Tells F.seen files.old result (λ found names. found ≡ true
            → length (rows_ahead names cursor.old) ≡ length (rows_ahead names cursor.new) + 1) }
        ensures end { Tells F.seen files.old result (λ found names. found ≡ false → rows_ahead names cursor.new ≡ []) }
        ensures counted { OnOk result (self.new.unread ≤ length self.new.text) }
        ensures told { IfTold F.seen files.old (λ names. IsCursorOf names cursor.new) }
        ensures cursor { IsSameCursor cursor.old cursor.new }
        ensures asked { Asked F.seen files.old files.new result PageFault.ReadFault }
    {
        let Some(_place) = cursor.find(files)? else {
            return Ok(false);
        };
        self.add_row(columns, &*cursor)?;
        cursor.pass();
        Ok(true)
    }

    // Adds the rows of a cursor, of which there are at most so many.
    fn add_rows<F: Files>(
        &mut self,
        files: &mut F,
        columns: &[Column],
        cursor: &mut RowCursor<'_>,
        most: u64,
    ) -> Result<(), PageFault>
        requires over { IsOver columns.now cursor.old }
        requires told { IfTold F.seen files.old (λ names. IsCursorOf names cursor.old) }
        requires most { IfTold F.seen files.old (λ names. length (rows_ahead names cursor.old) ≤ most) }
        requires counted { self.old.unread ≤ length self.old.text }
        ensures left { IfTold F.seen files.old (λ names. OnOk result ((all : List Row)
            → AreLeft columns.now all (rows_ahead names cursor.old) self.old
            → AreLeft columns.now all [] self.new)) }
        ensures asked { Asked F.seen files.old files.new result PageFault.ReadFault }
    {
        for k in 0..most {
            if !self.add_next(files, columns, cursor)? {
                return Ok(());
            }
        }
        Ok(())
    }
}

/// The text of the live rows of a heap in which nothing was found, by rising TID, and how many of their values are
/// compressed, which aren't read. Each block of the heap is read once, and each value in the TOAST table is joined
/// once. It is used with the files and the case that the heap was made with.
///
/// `ReadFault` comes only where the count of the files' faults rose.
pub fn copy_rows<F: Files>(
    alloc: Global,
    files: &mut F,
    case: &Case,
    heap: &SoundHeap,
) -> Result<CopyText, PageFault>
    requires belong { BelongTo case.now (files_of heap.now) }
    requires sound { IfTold F.seen files.old (λ names. IsSoundHeapOf case.now names heap.now) }
    requires quiet { IfTold F.seen files.old (λ names. IsQuiet case.now names) }
    ensures text { Tells F.seen files.old result (λ copy names. copy.text ≡ copied_text case.now names) }
    ensures unread { Tells F.seen files.old result (λ copy names. copy.unread ≡ unread_values case.now names) }
    ensures asked { Asked F.seen files.old files.new result PageFault.ReadFault }
{
    case.sound();
    let columns = case.columns();
    let numbers = numbers_below(alloc, columns.len() as u16)?;
    let mut cursor = RowCursor::new(alloc, case, heap, &numbers)?;
    let mut copy = CopyWriter::new(alloc);
    let most = heap.heap().blocks() as u64 * MAX_ITEMS as u64;
    copy.add_rows(files, columns, &mut cursor, most)?;
    Ok(CopyText {
        text: copy.text.finish()?,
        unread: copy.unread,
    })
}
