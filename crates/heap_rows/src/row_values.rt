//! Where the values of a live tuple stand that are asked for.
ghost use Rattle.std.specs.Prelude.{◌↔◌, ◌≡◌, ◌+◌, ◌<◌, ◌≤◌, All, List, ℕ, None, Some, length, map, true, [], ◌∷◌};
ghost use Rattle.std.specs.Prelude.{◌++◌, IfOk, IfSome, OnOk, slice_get};
ghost use Rattle.std.specs.Option.{IsSomeAnd, option_copied};
ghost use Rattle.outside.specs.Outside.{AskedAtMost, IfTold, Tells};
ghost use Rattle.key_orders.specs.Types.{HasAlignment, fixed_length};
ghost use Rattle.key_orders.specs.declared.columns.ColType.{ColType as ColumnType};
ghost use Rattle.case_file.specs.declared.case.Column.{Column as TableColumn};
ghost use Rattle.varlena_attrs.specs.Forms.{Attribute};
ghost use Rattle.varlena_attrs.specs.Inline.{IsLayout};
ghost use Rattle.varlena_attrs.specs.InTurn.{AreRead};
ghost use Rattle.varlena_attrs.specs.Shown.{IsWithin, shown_at};
ghost use Rattle.toast_chunks.specs.InHand.{Grows};
ghost use Rattle.heap_rows.specs.declared.row_values.AskedColumns.TheVariants as asked;
ghost use Rattle.heap_rows.specs.Rows.{cell_at, cell_of, external_cell};
ghost use Rattle.heap_rows.specs.RowValues.{AreCellsAsked, FitAsked, FitsPlace, FitsType, IsReadableValue};
ghost use Rattle.heap_rows.specs.RowValues.{IsThere};
ghost use Rattle.heap_rows.specs.RowValues.{AsksColumns, IsWholeIn, body_in, bytes_seen};
ghost use Rattle.heap_rows.specs.Reads.{chunk_reads, row_reads};
ghost use Rattle.heap_rows.specs.RowValues.{AreStarts, FitsColumnAt, IsStart};
ghost use Rattle.heap_rows.specs.RowValues.{cell_shown, column_asked, count_asked, shown_by};

use case_file::Column;
use key_orders::ColType;
use outside::{Files, NoMemory};
use rel_files::{PageFault, Relation};
use std::alloc::Global;
use toast_chunks::{ChunkReader, ToastFault, ToastMap, is_compressed, push_value};
use varlena_attrs::{AttrPlace, ToastPointer, TupleColumns, column_start, pointer_at};

/// Which columns of a table are asked for: all, or those of these numbers, counted from 0.
#[derive(Drop)]
pub(crate) enum AskedColumns {
    All,
    Only(Vec<u16>),
}

impl AskedColumns {
    ghost use Rattle.heap_rows.specs.RowValues.{column_asked, count_asked};

    /// Whether all are.
    pub(crate) fn is_all(&self) -> bool
        ensures { (result ≡ true) ↔ (self.now ≡ asked.All) }
    {
        match self {
            AskedColumns::All => true,
            AskedColumns::Only(_) => false,
        }
    }

    /// How many of so many columns they are.
    pub(crate) fn count(&self, columns: usize) -> usize
        ensures { result ≡ count_asked columns self.now }
    {
        match self {
            AskedColumns::All => columns,
            AskedColumns::Only(numbers) => numbers.len(),
        }
    }

    /// The number of the k-th of them, counted from 0.
    pub(crate) fn column(&self, k: usize) -> usize
        ensures { result ≡ column_asked self.now k }
    {
        match self {
            AskedColumns::All => k,
            AskedColumns::Only(numbers) => match numbers.get(k) {
                Some(number) => *number as usize,
                None => 0,
            },
        }
    }
}

/// Where the values of a table's rows come from: its columns, its TOAST table, where it has one, with the
/// live chunks of that, the columns that are asked for, and where these begin in tuples without nulls, as far as
/// that is known.
#[derive(Clone, Copy)]
pub(crate) struct ValueSources<'a> {
    pub(crate) columns: &'a [Column],
    pub(crate) toast: Option<&'a Relation>,
    pub(crate) chunks: &'a ToastMap,
    pub(crate) asked: &'a AskedColumns,
    pub(crate) starts: &'a [Option<usize>],
}

/// Where the k-th column that is asked for begins in tuples without nulls, if that is known.
#[inline]
pub(crate) fn start_at(starts: &[Option<usize>], k: usize) -> Option<usize>
    ensures { IfSome result (IsStart starts.now k) }
{
    if k < starts.len() { starts[k] } else { None }
}

/// Where each of these columns begins in a tuple without nulls, where all columns before it have a fixed length.
pub(crate) fn starts_of(
    alloc: Global,
    types: &[ColType],
    asked: &AskedColumns,
) -> Result<Vec<Option<usize>>, NoMemory>
    requires aligned { All HasAlignment types.now }
    ensures { IfOk result (λ starts. AreStarts types.now asked.now starts.items) }
{
    let mut starts = Vec::new(alloc);
    for k in 0..asked.count(types.len()) {
        starts.push(start_of(types, asked.column(k)))?;
    }
    Ok(starts)
}

// Where a column begins so.
fn start_of(types: &[ColType], column: usize) -> Option<usize>
    requires aligned { All HasAlignment types.now }
    ensures { IfSome result (IsLayout types.now column) }
{
    if types.len() < column {
        return None;
    }
    column_start(types, column)
}

/// A tuple: its page, and where its body lies there.
#[derive(Clone, Copy)]
pub(crate) struct RowTuple<'p> {
    pub(crate) page: &'p [u8; 8192],
    pub(crate) start: usize,
    pub(crate) len: usize,
}

impl<'p> RowTuple<'p> {
    // Its body.
    fn body(&self) -> &'p [u8]
        requires { self.now.start + self.now.len ≤ 8192 }
        ensures bytes { result.now ≡ body_in self.now }
        ensures long { length result.now ≡ self.now.len }
    {
        let page = self.page;
        &page[self.start..self.start + self.len]
    }
}

/// A column of a table, and what it is in a tuple.
#[derive(Clone, Copy)]
pub(crate) struct TupleColumn<'p> {
    pub(crate) column: &'p Column,
    pub(crate) attr: AttrPlace,
}

/// Where the value of a column stands: on the page, or among the bytes that were joined of chunks.
#[derive(Clone, Copy, Debug, PartialEq, Eq)]
pub(crate) enum ValuePlace {
    /// A null by the tuple's null bits.
    Null,
    /// A column past those that the tuple stores: the case has its value.
    Missing,
    OnPage { start: usize, len: usize },
    Joined { start: usize, len: usize },
    /// A compressed value, in place or in the TOAST table.
    Packed,
}

/// The values of a row that are asked for, in their order, by their places, and the bytes of those that
/// stand in the TOAST table. It keeps its memory, so that it serves one row after another.
#[derive(Drop)]
pub(crate) struct RowValues {
    pub(crate) places: Vec<ValuePlace>,
    pub(crate) joined: Vec<u8>,
    pub(crate) reader: ChunkReader,
}

impl RowValues {
    /// Of no row yet. It takes no memory.
    pub(crate) fn new(alloc: Global) -> RowValues {
        RowValues {
            places: Vec::new(alloc),
            joined: Vec::new(alloc),
            reader: ChunkReader::new(alloc),
        }
    }

    // Joins a value in the TOAST table, unless it is compressed; none where its chunks aren't whole.
    fn join<F: Files>(
        &mut self,
        files: &mut F,
        from: &ValueSources<'_>,
        p: ToastPointer,
    ) -> Result<Option<ValuePlace>, PageFault>
        requires readable { IfTold F.seen files.old (λ names.
            IsReadableValue names (option_copied from.now.toast) from.now.chunks.now) }
        ensures told { Tells F.seen files.old result (λ found names. (page : List ℕ) (column : TableColumn)
            → IsWholeIn (option_copied from.now.toast) from.now.chunks.now p
            → IsSomeAnd found (λ at. cell_shown page self.new.joined.items column at
            ≡ external_cell (bytes_seen names (option_copied from.now.toast) from.now.chunks.now p) p)) }
        ensures fits { IfOk result (λ found. IfSome found (λ at. (ctype : ColumnType) → fixed_length ctype ≡ None
            → FitsPlace (length self.new.joined.items) ctype at)) }
        ensures grows { Grows self.old.joined.items self.new.joined.items }
        ensures places { self.new.places.items ≡ self.old.places.items }
        ensures asked { AskedAtMost (chunk_reads (option_copied from.now.toast)) F.seen files.old files.new result
            PageFault.ReadFault }
    {
        let Some(toast) = from.toast else {
            return Ok(None);
        };
        if !from.chunks.whole(p) {
            return Ok(None);
        }
        if is_compressed(p) {
            return Ok(Some(ValuePlace::Packed));
        }
        let start = self.joined.len();
        match push_value(
            files,
            toast,
            from.chunks,
            p,
            &mut self.reader,
            &mut self.joined,
        ) {
            Ok(()) => Ok(Some(ValuePlace::Joined {
                start,
                len: self.joined.len() - start,
            })),
            Err(ToastFault::ReadFault) => Err(PageFault::ReadFault),
            Err(ToastFault::NoMemory) => Err(PageFault::NoMemory),
        }
    }

    // Where the value of a column of a tuple stands; none where its chunks aren't whole.
    fn place_of<F: Files>(
        &mut self,
        files: &mut F,
        from: &ValueSources<'_>,
        tuple: &RowTuple<'_>,
        at: TupleColumn<'_>,
    ) -> Result<Option<ValuePlace>, PageFault>
        requires readable { IfTold F.seen files.old (λ names.
            IsReadableValue names (option_copied from.now.toast) from.now.chunks.now) }
        requires inside { tuple.now.start + tuple.now.len ≤ 8192 }
        requires within { IsWithin tuple.now.len at.attr }
        requires fits { FitsType at.column.now.ctype (shown_at (body_in tuple.now) at.attr) }
        ensures told { Tells F.seen files.old result (λ found names.
            IsThere (option_copied from.now.toast) from.now.chunks.now (shown_at (body_in tuple.now) at.entry.attr)
            → IsSomeAnd found (λ place. cell_shown tuple.now.page.now self.new.joined.items at.entry.column.now place
            ≡ cell_of (bytes_seen names (option_copied from.now.toast) from.now.chunks.now) at.entry.column.now
            (shown_at (body_in tuple.now) at.entry.attr))) }
        ensures fits { IfOk result (λ found. IfSome found (λ place.
            FitsPlace (length self.new.joined.items) at.entry.column.now.ctype place)) }
        ensures grows { Grows self.old.joined.items self.new.joined.items }
        ensures places { self.new.places.items ≡ self.old.places.items }
        ensures asked { AskedAtMost (chunk_reads (option_copied from.now.toast)) F.seen files.old files.new result
            PageFault.ReadFault }
    {
        let body = tuple.body();
        match at.attr {
            AttrPlace::Null => Ok(Some(ValuePlace::Null)),
            AttrPlace::Missing => Ok(Some(ValuePlace::Missing)),
            AttrPlace::Plain { start, len } => Ok(Some(ValuePlace::OnPage {
                start: tuple.start + start,
                len,
            })),
            AttrPlace::Packed { .. } => Ok(Some(ValuePlace::Packed)),
            AttrPlace::External { start } => self.join(files, from, pointer_at(body, start)),
        }
    }

    // Where the value of the k-th column stands that is asked for; none where its chunks aren't whole. Of most rows a
    // look at the bytes of the value tells it.
    #[inline]
    fn place_asked<F: Files>(
        &mut self,
        files: &mut F,
        from: &ValueSources<'_>,
        tuple: &RowTuple<'_>,
        attrs: &mut TupleColumns<'_>,
        k: usize,
    ) -> Result<Option<ValuePlace>, PageFault>
        requires readable { IfTold F.seen files.old (λ names.
            IsReadableValue names (option_copied from.now.toast) from.now.chunks.now) }
        requires inside { tuple.now.start + tuple.now.len ≤ 8192 }
        requires body { attrs.old.body ≡ body_in tuple.now }
        requires long { length attrs.old.body ≡ tuple.now.len }
        requires types { attrs.old.columns ≡ map (λ c. c.ctype) from.now.columns.now }
        ensures told { Tells F.seen files.old result (λ found names. (list : List Attribute) → AreRead attrs.old list
            → AreStarts (map (λ c. c.ctype) from.now.columns.now) from.now.asked.now from.now.starts.now
            → column_asked from.now.asked.now k < length from.now.columns.now
            → All (IsThere (option_copied from.now.toast) from.now.chunks.now) list
            → IsSomeAnd found (λ place. shown_by tuple.now.page.now self.new.joined.items
            (slice_get from.now.columns.now (column_asked from.now.asked.now k)) place
            ≡ cell_at (bytes_seen names (option_copied from.now.toast) from.now.chunks.now)
            from.now.columns.now list (column_asked from.now.asked.now k))) }
        ensures fits { IfOk result (λ found. IfSome found (λ place. FitsColumnAt (length self.new.joined.items)
            (slice_get from.now.columns.now (column_asked from.now.asked.now k)) place)) }
        ensures number { IfOk result (λ found. IfSome found (λ place.
            column_asked from.now.asked.now k < length from.now.columns.now)) }
        ensures grows { Grows self.old.joined.items self.new.joined.items }
        ensures places { self.new.places.items ≡ self.old.places.items }
        ensures attrs { attrs.new ≡ attrs.old }
        ensures asked { AskedAtMost (chunk_reads (option_copied from.now.toast)) F.seen files.old files.new result
            PageFault.ReadFault }
    {
        let a = from.asked.column(k);
        if from.columns.len() <= a {
            return Ok(None);
        }
        if let Some(start) = start_at(from.starts, k) {
            if let Some(piece) = attrs.plain_value(a, start) {
                return Ok(Some(ValuePlace::OnPage {
                    start: tuple.start + piece.start,
                    len: piece.len,
                }));
            }
        }
        let Some(attr) = attrs.attribute(a) else {
            return Ok(None);
        };
        let column = &from.columns[a];
        self.place_of(files, from, tuple, TupleColumn { column, attr })
    }

    // Keeps one more place.
    fn keep(&mut self, place: ValuePlace) -> Result<(), NoMemory>
        ensures places { OnOk result (self.new.places.items ≡ self.old.places.items ++ place ∷ []) }
        ensures joined { self.new.joined ≡ self.old.joined }
    {
        self.places.push(place)?;
        Ok(())
    }

    /// Finds the values of a tuple that are asked for, whose attributes are read one after the other; whether
    /// all were found, which all are in a sound heap.
    pub(crate) fn find<F: Files>(
        &mut self,
        files: &mut F,
        from: &ValueSources<'_>,
        tuple: &RowTuple<'_>,
        attrs: &mut TupleColumns<'_>,
    ) -> Result<bool, PageFault>
        requires readable { IfTold F.seen files.old (λ names.
            IsReadableValue names (option_copied from.now.toast) from.now.chunks.now) }
        requires inside { tuple.now.start + tuple.now.len ≤ 8192 }
        requires body { attrs.old.body ≡ body_in tuple.now }
        requires long { length attrs.old.body ≡ tuple.now.len }
        requires types { attrs.old.columns ≡ map (λ c. c.ctype) from.now.columns.now }
        ensures told { Tells F.seen files.old result (λ found names. (list : List Attribute) → AreRead attrs.old list
            → AsksColumns (length from.now.columns.now) from.now.asked.now
            → AreStarts (map (λ c. c.ctype) from.now.columns.now) from.now.asked.now from.now.starts.now
            → All (IsThere (option_copied from.now.toast) from.now.chunks.now) list → found ≡ true) }
        ensures cells { Tells F.seen files.old result (λ found names. (list : List Attribute) → AreRead attrs.old list
            → AreStarts (map (λ c. c.ctype) from.now.columns.now) from.now.asked.now from.now.starts.now
            → found ≡ true → All (IsThere (option_copied from.now.toast) from.now.chunks.now) list
            → AreCellsAsked tuple.now.page.now self.new.joined.items from.now.columns.now from.now.asked.now
            self.new.places.items (cell_at (bytes_seen names (option_copied from.now.toast) from.now.chunks.now)
            from.now.columns.now list) (count_asked (length from.now.columns.now) from.now.asked.now)) }
        ensures fits { IfOk result (λ found. found ≡ true → FitAsked (length self.new.joined.items) from.now.columns.now
            from.now.asked.now self.new.places.items (count_asked (length from.now.columns.now) from.now.asked.now)) }
        ensures count { IfOk result (λ found. found ≡ true →
            length self.new.places.items ≡ count_asked (length from.now.columns.now) from.now.asked.now) }
        ensures asked { AskedAtMost (row_reads (option_copied from.now.toast)
            (count_asked (length from.now.columns.now) from.now.asked.now)) F.seen files.old files.new result
            PageFault.ReadFault }
    {
        self.places.clear();
        self.joined.clear();
        for k in 0..from.asked.count(from.columns.len()) {
            match self.place_asked(files, from, tuple, attrs, k)? {
                Some(place) => self.keep(place)?,
                None => return Ok(false),
            }
        }
        Ok(true)
    }
}
