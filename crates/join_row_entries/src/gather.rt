//! The entries of the live rows of a heap in an index.
ghost use Rattle.std.specs.Prelude.{◌≡◌, ◌≤◌, ◌+◌, ◌∷◌, ◌++◌, ◌==◌, [], ℕ, List, IfOk, OnOk, false, length, map, not};
ghost use Rattle.std.specs.Prelude.{true};
ghost use Rattle.outside.specs.Outside.{Asked, IfTold, Names, Tells};
ghost use Rattle.key_orders.specs.Values.{value_shown};
ghost use Rattle.case_file.specs.Record.{CaseRecord};
ghost use Rattle.bt_image.specs.Image.{leaf_entry};
ghost use Rattle.heap_table_check.specs.Found.{IsQuiet};
ghost use Rattle.heap_table_check.specs.Files.{BelongTo, IsSoundHeapOf, files_of};
ghost use Rattle.heap_rows.specs.RowCursor.{IsAtRow, IsCursorOf, IsSameCursor, rows_ahead};
ghost use Rattle.heap_rows.specs.Rows.{rows_of};
ghost use Rattle.heap_rows.specs.declared.rows.LiveRow.{LiveRow as Row};
ghost use Rattle.bt_build.specs.Listed.{AreValues};
ghost use Rattle.join_row_entries.specs.Entries.{AreEntries};
ghost use Rattle.join_row_entries.specs.Gathering.{AreLeft, AreTaken, IsEmpty, IsListOf, IsSameList};
ghost use Rattle.join_row_entries.specs.Reading.{IsAskedFor, IsReader};
ghost use Rattle.join_row_entries.specs.Roots.{IsNoneTaken, IsOnlyTaken, may_take};

use crate::index::IndexReader;
use crate::roots::TakenRoots;
use bt_build::EntryList;
use case_file::Case;
use heap_rows::{RowCursor, RowPlace, rows_are_live_tuples};
use heap_table_check::SoundHeap;
use join_row_keys::columns_of;
use key_orders::{KeyRefs, MoreRefs, Tid};
use key_storage::RowValues;
use outside::{Files, NoMemory};
use page_layout::MAX_ITEMS;
use rel_files::PageFault;
use reports::{Place, Reason, Report};
use std::alloc::Global;

/// The entries of a heap's live rows in an index, or what is in doubt of them.
#[derive(Drop)]
pub enum RowEntries {
    /// One for each live row, by rising TID of the rows.
    Listed(EntryList),
    /// The rows of which a value in the index's columns is compressed (U6), by rising TID.
    Doubted(Report),
}

// What was gathered of the rows so far: their entries, as long as no row is in doubt, and the rows that are. Of files
// that aren't told nothing is known, so a row whose root has an entry already is passed over; in files that hold the
// heap there is none.
#[derive(Drop)]
struct Gathered {
    list: EntryList,
    roots: TakenRoots,
    report: Report,
}

impl Gathered {
    // Nothing yet.
    fn new(alloc: Global, reader: IndexReader<'_>) -> Result<Gathered, NoMemory>
        requires { IsReader reader }
        ensures list { IfOk result (λ g. IsListOf reader.entry.case.now reader.entry.index g) }
        ensures empty { IfOk result (λ g. IsEmpty g) }
        ensures none { IfOk result (λ g. IsNoneTaken g.roots) }
    {
        reader.case.sound();
        let list = EntryList::new(alloc, reader.rows.columns.specs, reader.rows.columns.more)?;
        Ok(Gathered {
            list,
            roots: TakenRoots::new(),
            report: Report::new(alloc),
        })
    }

    // Whether a row is in doubt.
    fn has_doubt(&self) -> bool
        ensures { result ≡ not (length self.now.report.unjudged == 0) }
    {
        self.report.counts().1 != 0
    }

    // Adds the entry of a row, unless its root has one.
    fn add_entry(&mut self, values: RowValues<'_>, root: Tid) -> Result<(), NoMemory>
        requires values { AreValues self.old.list (map value_shown values.key.now) (map value_shown values.more.now) }
        requires taken { AreTaken self.old }
        ensures same { OnOk result (IsSameList self.old self.new) }
        ensures taken { OnOk result (AreTaken self.new) }
        ensures entry { OnOk result (may_take self.old.roots root ≡ true
            → self.new.list.entries ≡ self.old.list.entries ++ leaf_entry (map value_shown values.entry.key.now)
            (map value_shown values.entry.more.now) root false ∷ []) }
        ensures others { OnOk result (IsOnlyTaken root self.old.roots self.new.roots) }
    {
        if self.roots.take(root) {
            self.list.add(values, root)?;
        }
        Ok(())
    }

    // Adds the entry of the row at which a cursor is, or that it is in doubt. Where some row is, entries aren't added.
    fn add_row(
        &mut self,
        reader: IndexReader<'_>,
        cursor: &RowCursor<'_>,
        place: RowPlace,
    ) -> Result<(), NoMemory>
        requires reader { IsReader reader }
        requires asked { IsAskedFor reader cursor.now }
        requires at { IsAtRow cursor.now }
        requires list { IsListOf reader.case.now reader.index self.old }
        ensures list { OnOk result (IsListOf reader.entry.case.now reader.entry.index self.new) }
        ensures left { OnOk result ((names : Names) (row : Row) (rows : List Row) (all : List Row)
            → IsCursorOf names cursor.now → rows_ahead names cursor.now ≡ row ∷ rows → place.tid ≡ row.tid
            → place.root ≡ row.root → AreLeft reader.entry.case.now reader.entry.index all (row ∷ rows) self.old
            → AreLeft reader.entry.case.now reader.entry.index all rows self.new) }
    {
        let mut key = KeyRefs::new();
        let mut more = MoreRefs::new();
        if !reader.read(cursor, &mut key, &mut more) {
            let place = Place::Tuple(reader.index, place.tid);
            return self.report.unjudged(Reason::U6, place);
        }
        if self.has_doubt() {
            return Ok(());
        }
        let values = RowValues {
            key: key.as_slice(),
            more: more.as_slice(),
        };
        self.add_entry(values, place.root)
    }

    // Adds the next row of a cursor, and goes past it; whether there is one.
    fn add_next<F: Files>(
        &mut self,
        files: &mut F,
        reader: IndexReader<'_>,
        cursor: &mut RowCursor<'_>,
    ) -> Result<bool, PageFault>
        requires reader { IsReader reader }
        requires asked { IsAskedFor reader cursor.old }
        requires told { IfTold F.seen files.old (λ names. IsCursorOf names cursor.old) }
        requires list { IsListOf reader.case.now reader.index self.old }
        ensures list { OnOk result (IsListOf reader.entry.case.now reader.entry.index self.new) }
        ensures left { IfTold F.seen files.old (λ names. OnOk result ((all : List Row)
            → AreLeft reader.entry.case.now reader.entry.index all (rows_ahead names cursor.old) self.old
            → AreLeft reader.entry.case.now reader.entry.index all (rows_ahead names cursor.new) self.new)) }
        ensures next { Tells F.seen files.old result (λ found names. found ≡ true
            → length (rows_ahead names cursor.old) ≡ length (rows_ahead names cursor.new) + 1) }
        ensures end { Tells F.seen files.old result (λ found names. found ≡ false → rows_ahead names cursor.new ≡ []) }
        ensures told { IfTold F.seen files.old (λ names. IsCursorOf names cursor.new) }
        ensures cursor { IsSameCursor cursor.old cursor.new }
        ensures asked { Asked F.seen files.old files.new result PageFault.ReadFault }
    {
        let Some(place) = cursor.find(files)? else {
            return Ok(false);
        };
        self.add_row(reader, &*cursor, place)?;
        cursor.pass();
        Ok(true)
    }

    // Adds the rows of a cursor, of which there are at most so many.
    fn add_rows<F: Files>(
        &mut self,
        files: &mut F,
        reader: IndexReader<'_>,
        cursor: &mut RowCursor<'_>,
        most: u64,
    ) -> Result<(), PageFault>
        requires reader { IsReader reader }
        requires asked { IsAskedFor reader cursor.old }
        requires told { IfTold F.seen files.old (λ names. IsCursorOf names cursor.old) }
        requires most { IfTold F.seen files.old (λ names. length (rows_ahead names cursor.old) ≤ most) }
        requires list { IsListOf reader.case.now reader.index self.old }
        ensures list { OnOk result (IsListOf reader.entry.case.now reader.entry.index self.new) }
        ensures left { IfTold F.seen files.old (λ names. OnOk result ((all : List Row)
            → AreLeft reader.entry.case.now reader.entry.index all (rows_ahead names cursor.old) self.old
            → AreLeft reader.entry.case.now reader.entry.index all [] self.new)) }
        ensures asked { Asked F.seen files.old files.new result PageFault.ReadFault }
    {
        for k in 0..most {
            if !self.add_next(files, reader, cursor)? {
                return Ok(());
            }
        }
        Ok(())
    }

    // What was gathered, where no row is left.
    fn finish(self) -> RowEntries
        ensures { (case : CaseRecord) (names : Names) (n : ℕ) → IsListOf case n self
            → AreLeft case n (rows_of case names) [] self → AreEntries case names n result }
    {
        if self.has_doubt() {
            return RowEntries::Doubted(self.report);
        }
        RowEntries::Listed(self.list)
    }
}

/// The entries that the live rows of a heap, in which nothing was found, have in an index of its case, which is counted
/// from 1: of each row its own key, its included values and the TID of its root, by rising TID of the rows. Where a
/// value of a row in the index's columns is compressed, so that it isn't read (U6), the rows of which that is so come
/// instead. No file of the index is read, and each block of the heap is read once. It is used with the files and the
/// case that the heap was made with.
///
/// `ReadFault` comes only where the count of the files' faults rose. `NoMemory` comes too where a value has a GiB, or
/// all of them would have more than 4 GiB together.
pub fn row_entries<F: Files>(
    alloc: Global,
    files: &mut F,
    case: &Case,
    heap: &SoundHeap,
    index: u16,
) -> Result<RowEntries, PageFault>
    requires belong { BelongTo case.now (files_of heap.now) }
    requires sound { IfTold F.seen files.old (λ names. IsSoundHeapOf case.now names heap.now) }
    requires quiet { IfTold F.seen files.old (λ names. IsQuiet case.now names) }
    requires first { 1 ≤ index }
    requires last { index ≤ length case.now.indexes }
    ensures entries { Tells F.seen files.old result (λ found names. AreEntries case.now names index found) }
    ensures asked { Asked F.seen files.old files.new result PageFault.ReadFault }
{
    rows_are_live_tuples();
    case.sound();
    let reader = IndexReader::new(case, index);
    let numbers = columns_of(alloc, &reader.rows.columns)?;
    let mut cursor = RowCursor::new(alloc, case, heap, &numbers)?;
    let mut gathered = Gathered::new(alloc, reader)?;
    let most = heap.heap().blocks() as u64 * MAX_ITEMS as u64;
    gathered.add_rows(files, reader, &mut cursor, most)?;
    Ok(gathered.finish())
}
