//! The columns of an index tuple, as values that lie in it.
ghost use Rattle.std.specs.Prelude.{◌≡◌, ◌+◌, ◌++◌, [], ◌∷◌, ◌≤◌, ◌<◌, Ok, Err, ℕ, List, Option};
ghost use Rattle.std.specs.Prelude.{length, take, true, None, IfOk, IfErr, All};
ghost use Rattle.std.specs.Option.{option_copied};
ghost use Rattle.key_orders.specs.Keys.{fits_columns};
ghost use Rattle.key_orders.specs.Orders.{fits_type};
ghost use Rattle.key_orders.specs.Types.{HasAlignment};
ghost use Rattle.key_orders.specs.Values.{value_shown};
ghost use Rattle.key_orders.specs.declared.columns.ColType.{ColType as Column};
ghost use Rattle.key_orders.specs.declared.columns.Value.{Value};
ghost use Rattle.varlena_attrs.specs.Attributes.{presence_of};
ghost use Rattle.key_attrs.specs.Columns.{all_types};
ghost use Rattle.key_attrs.specs.KeyLaws.{SaysOfAttributes};
ghost use Rattle.key_attrs.specs.Keyed.{attribute_value, inline_step, is_packed, key_types, key_values, more_types};
ghost use Rattle.key_attrs.specs.Keyed.{fits_more, unless_external};
ghost use Rattle.key_attrs.specs.KeyedShown.{HasPlainLength, entry_shown, inline_shown, packed_here};
ghost use Rattle.key_attrs.specs.KeyedShown.{told_by};
ghost use Rattle.varlena_attrs.specs.Reading.{attribute_at};
ghost use Rattle.varlena_attrs.specs.Shown.{IsFoundWithin, IsWithin, shown_at};

use crate::columns::IndexColumns;
use key_orders::{ColType, KeyRefs, KeySpec, MoreRefs, MoreSpec, ValueRef, value_of};
use varlena_attrs::{AttrPlace, Cause, Found, attribute_at, is_null, plain_piece};

/// Why the columns of an index tuple can't be read. Columns count from 1, the included ones after
/// those of the key.
#[derive(Clone, Copy, Debug, PartialEq, Eq)]
pub enum KeyFault {
    /// The column's place, its header or its content passes the end of the tuple.
    PastEnd { column: u16 },
    /// The length of a 4-byte header is below 4, or below 8 where the value is compressed.
    BadHeader { column: u16 },
    /// The value stands elsewhere, as no value of an index tuple does.
    External { column: u16 },
    /// All columns can be read, and this is the first whose value is compressed.
    Packed { column: u16 },
}

// The fault of a cause at a column of an index tuple.
#[inline]
fn in_key(cause: Cause, column: u16) -> KeyFault
    ensures { Err result ≡ inline_step column (Err cause) }
{
    match cause {
        Cause::PastEnd => KeyFault::PastEnd { column },
        Cause::BadHeader => KeyFault::BadHeader { column },
        Cause::BadTag => KeyFault::External { column },
    }
}

// An index tuple, and how far its columns are read.
#[derive(Drop)]
struct IndexTuple<'p> {
    body: &'p [u8],
    nulls: Option<&'p [u8]>,
    natts: u16,
    // How many columns are read, and where the last of them ends.
    column: u16,
    place: usize,
    // The first of them that is compressed, counted from 1.
    packed: Option<u16>,
}

// The value at a place of a tuple; a compressed one isn't read.
#[inline]
pub(crate) fn value_at<'p>(ctype: ColType, body: &'p [u8], place: AttrPlace) -> ValueRef<'p>
    requires within { IsWithin (length body.now) place }
    requires long { HasPlainLength ctype place }
    ensures value { value_shown result ≡ attribute_value ctype (shown_at body.now place) }
    ensures fits { fits_type ctype (value_shown result) ≡ true }
{
    match place {
        AttrPlace::Plain { start, len } => value_of(ctype, &body[start..start + len]),
        AttrPlace::Null
        | AttrPlace::Missing
        | AttrPlace::Packed { .. }
        | AttrPlace::External { .. } => ValueRef::Null,
    }
}

// A column, where its value is compressed.
#[inline]
fn packed_at(place: AttrPlace, column: u16) -> Option<u16>
    ensures { (body : List ℕ) → result ≡ packed_here (is_packed (shown_at body place)) column }
{
    match place {
        AttrPlace::Packed { .. } => Some(column),
        AttrPlace::Null
        | AttrPlace::Missing
        | AttrPlace::Plain { .. }
        | AttrPlace::External { .. } => None,
    }
}

// What was found at a column, unless its value stands elsewhere.
#[inline]
fn unless_external(found: Found, column: u16) -> Result<Found, KeyFault>
    ensures step { (body : List ℕ) → inline_shown body result
        ≡ unless_external column (shown_at body found.place) found.next }
    ensures same { IfOk result (λ f. f ≡ found) }
{
    match found.place {
        AttrPlace::External { .. } => Err(KeyFault::External { column }),
        AttrPlace::Null | AttrPlace::Missing | AttrPlace::Plain { .. } | AttrPlace::Packed { .. } =>
            Ok(found),
    }
}

// A key is written once and copied as little as can be: a copy of one that was just written has to wait
// for the writes. So what a tree's items are read by is always inline.
impl<'p> IndexTuple<'p> {
    // A tuple of so many columns, of which none is read.
    #[inline]
    fn new(body: &'p [u8], nulls: Option<&'p [u8]>, natts: u16) -> IndexTuple<'p>
        ensures told { (types : List Column) → length types ≡ natts
            → told_by result [] types ≡ key_values types body.now (option_copied nulls.entry) }
        ensures place { result.place ≤ length result.body.now }
        ensures column { result.column ≡ 0 }
    {
        IndexTuple {
            body,
            nulls,
            natts,
            column: 0,
            place: 0,
            packed: None,
        }
    }

    // The attribute of the next column.
    #[inline(always)]
    fn attribute(&self, ctype: ColType) -> Result<Found, KeyFault>
        requires known { HasAlignment ctype }
        requires within { self.now.place ≤ length self.now.body.now }
        requires few { self.now.column < 32 }
        ensures step { inline_shown self.now.body.now result
            ≡ inline_step (self.now.column + 1)
            (attribute_at (presence_of (option_copied self.now.nulls) self.now.natts self.now.column) ctype
            self.now.body.now self.now.place) }
        ensures within { IfOk result (IsFoundWithin (length self.now.body.now)) }
        ensures long { IfOk result (λ found. HasPlainLength ctype found.place) }
    {
        let k = self.column as usize;
        if self.column < self.natts && !is_null(self.nulls, k) {
            if let Some(piece) = plain_piece(ctype, self.body, self.place) {
                return Ok(piece.found());
            }
        }
        let column = self.column + 1;
        match attribute_at(ctype, self.body, self.nulls, self.natts, k, self.place) {
            Ok(found) => unless_external(found, column),
            Err(cause) => Err(in_key(cause, column)),
        }
    }

    // The value of the next column; Null where it is compressed.
    #[inline(always)]
    fn read(&mut self, ctype: ColType) -> Result<ValueRef<'p>, KeyFault>
        requires known { HasAlignment ctype }
        requires within { self.old.place ≤ length self.old.body.now }
        requires few { self.old.column < 32 }
        ensures value { IfOk result (λ v. (values : List Value) (types : List Column)
            → told_by self.old values (ctype ∷ types) ≡ told_by self.new (values ++ value_shown v ∷ []) types) }
        ensures fault { IfErr result (λ e. (values : List Value) (types : List Column)
            → told_by self.old values (ctype ∷ types) ≡ Err e) }
        ensures fits { IfOk result (λ v. fits_type ctype (value_shown v) ≡ true) }
        ensures within { self.new.place ≤ length self.new.body.now }
        ensures next { IfOk result (λ v. self.new.column ≡ self.old.column + 1) }
    {
        let found = self.attribute(ctype)?;
        self.column += 1;
        self.place = found.next;
        self.packed = self.packed.or(packed_at(found.place, self.column));
        Ok(value_at(ctype, self.body, found.place))
    }

    // Reads the values of the next columns, which are those of a key.
    #[inline(always)]
    fn read_key(&mut self, specs: &[KeySpec], key: &mut KeyRefs<'p>) -> Result<(), KeyFault>
        requires few { length specs.now ≤ 8 }
        requires aligned { All HasAlignment (key_types specs.now) }
        requires first { self.old.column ≡ 0 }
        requires within { self.old.place ≤ length self.old.body.now }
        ensures value { IfOk result (λ u. (types : List Column)
            → told_by self.old [] (key_types specs.now ++ types) ≡ told_by self.new key.new types) }
        ensures fault { IfErr result (λ e. (types : List Column)
            → told_by self.old [] (key_types specs.now ++ types) ≡ Err e) }
        ensures count { IfOk result (λ u. length key.new ≡ length specs.now) }
        ensures fits { IfOk result (λ u. fits_columns specs.now key.new ≡ true) }
        ensures within { self.new.place ≤ length self.new.body.now }
        ensures next { IfOk result (λ u. self.new.column ≡ length specs.now) }
    {
        key.clear();
        for spec in specs {
            key.push(self.read(spec.ctype)?);
        }
        Ok(())
    }

    // The values of the last columns, which an index includes beside its key.
    fn read_more(&mut self, more: &[MoreSpec]) -> Result<MoreRefs<'p>, KeyFault>
        requires few { length more.now ≤ 24 }
        requires aligned { All HasAlignment (more_types more.now) }
        requires first { self.old.column ≤ 8 }
        requires within { self.old.place ≤ length self.old.body.now }
        ensures value { IfOk result (λ list. (values : List Value)
            → told_by self.old values (more_types more.now) ≡ told_by self.new (values ++ list) []) }
        ensures fault { IfErr result (λ e. (values : List Value)
            → told_by self.old values (more_types more.now) ≡ Err e) }
        ensures fits { IfOk result (λ list. fits_more more.now list ≡ true) }
    {
        let mut list = MoreRefs::new();
        for m in more {
            list.push(self.read(m.ctype)?);
        }
        Ok(list)
    }
}

// Reads the values of a key in a tuple without null bits, as long as each is found by the least that tells
// it (`plain`), and answers whether all were. Else it has read some of them. A second walk over the
// columns, for its speed alone: where it stands is two numbers, and most keys are read by it.
#[inline(always)]
fn read_plain_key<'p>(specs: &[KeySpec], body: &'p [u8], key: &mut KeyRefs<'p>) -> bool
    requires few { length specs.now ≤ 8 }
    requires aligned { All HasAlignment (key_types specs.now) }
    ensures value { result ≡ true → key_values (key_types specs.now) body.now None ≡ Ok key.new }
    ensures count { result ≡ true → length key.new ≡ length specs.now }
    ensures fits { result ≡ true → fits_columns specs.now key.new ≡ true }
{
    key.clear();
    let mut place = 0;
    for spec in specs {
        match plain_piece(spec.ctype, body, place) {
            None => return false,
            Some(piece) => {
                let found = piece.found();
                key.push(value_at(spec.ctype, body, found.place));
                place = found.next;
            }
        }
    }
    true
}

/// The values of the first columns of a key in an index tuple, where they lie: `kept` of those in
/// `specs`, from the tuple's body and its null bits, where it has some. Columns past those that the
/// tuple has null bits for aren't null.
///
/// A fault other than `Packed` comes exactly where one of these columns can't be read in the tuple,
/// and names the first such column and the first cause there. `Packed` comes exactly where all can be
/// read and one is compressed, and names the first such column.
pub fn key_attributes<'p>(
    columns: &IndexColumns<'_>,
    body: &'p [u8],
    nulls: Option<&'p [u8]>,
    kept: u16,
) -> Result<KeyRefs<'p>, KeyFault>
    requires kept { kept ≤ length columns.now.specs.now }
    ensures value { result
        ≡ key_values (key_types (take kept columns.now.specs.now)) body.now (option_copied nulls.entry) }
    ensures count { IfOk result (λ key. length key ≡ kept) }
    ensures fits { IfOk result (λ key. fits_columns columns.now.specs.now key ≡ true) }
{
    let mut key = KeyRefs::new();
    read_key_attributes(columns, body, nulls, kept, &mut key)?;
    Ok(key)
}

/// Reads the values of [`key_attributes`] into a place that is at hand, where they are the only ones
/// then. After a fault it has some of them.
#[inline(always)]
pub fn read_key_attributes<'p>(
    columns: &IndexColumns<'_>,
    body: &'p [u8],
    nulls: Option<&'p [u8]>,
    kept: u16,
    key: &mut KeyRefs<'p>,
) -> Result<(), KeyFault>
    requires kept { kept ≤ length columns.now.specs.now }
    ensures value { IfOk result (λ u.
        key_values (key_types (take kept columns.now.specs.now)) body.now (option_copied nulls.entry) ≡ Ok key.new) }
    ensures fault { IfErr result (λ e.
        key_values (key_types (take kept columns.now.specs.now)) body.now (option_copied nulls.entry) ≡ Err e) }
    ensures count { IfOk result (λ u. length key.new ≡ kept) }
    ensures fits { IfOk result (λ u. fits_columns columns.now.specs.now key.new ≡ true) }
{
    let specs = &columns.specs[..kept as usize];
    if nulls.is_none() && read_plain_key(specs, body, key) {
        return Ok(());
    }
    read_any_key(specs, body, nulls, key)
}

// Reads the values of a key in a tuple that has its columns alone. It stays a call, since few keys are
// read by it: in line, what it keeps would be set up for each.
#[inline(never)]
#[tactic(auto, unfolding(crate::specs::Keyed::key_values))]
fn read_any_key<'p>(
    specs: &[KeySpec],
    body: &'p [u8],
    nulls: Option<&'p [u8]>,
    key: &mut KeyRefs<'p>,
) -> Result<(), KeyFault>
    requires few { length specs.now ≤ 8 }
    requires aligned { All HasAlignment (key_types specs.now) }
    ensures value { IfOk result (λ u.
        key_values (key_types specs.now) body.now (option_copied nulls.entry) ≡ Ok key.new) }
    ensures fault { IfErr result (λ e.
        key_values (key_types specs.now) body.now (option_copied nulls.entry) ≡ Err e) }
    ensures count { IfOk result (λ u. length key.new ≡ length specs.now) }
    ensures fits { IfOk result (λ u. fits_columns specs.now key.new ≡ true) }
{
    let mut tuple = IndexTuple::new(body, nulls, specs.len() as u16);
    tuple.read_key(specs, key)?;
    match tuple.packed {
        Some(column) => Err(KeyFault::Packed { column }),
        None => Ok(()),
    }
}

/// The values of all columns of a leaf's index tuple, where they lie: those of the key, which are read
/// into a place that is at hand, and after them those that the index includes. Faults are those of
/// [`key_attributes`] over both; after one the place has some values of the key.
#[tactic(auto, unfolding(crate::specs::Keyed::key_values))]
pub fn read_entry_attributes<'p>(
    columns: &IndexColumns<'_>,
    body: &'p [u8],
    nulls: Option<&'p [u8]>,
    key: &mut KeyRefs<'p>,
) -> Result<MoreRefs<'p>, KeyFault>
    ensures value { IfOk result (λ rest.
        key_values (all_types columns.now) body.now (option_copied nulls.entry) ≡ Ok (key.new ++ rest)) }
    ensures fault { IfErr result (λ e.
        key_values (all_types columns.now) body.now (option_copied nulls.entry) ≡ Err e) }
    ensures count { IfOk result (λ rest. length key.new ≡ length columns.now.specs.now) }
    ensures fits { IfOk result (λ rest. fits_columns columns.now.specs.now key.new ≡ true) }
    ensures included { IfOk result (λ rest. fits_more columns.now.more.now rest ≡ true) }
{
    let count = columns.specs.len() as u16 + columns.more.len() as u16;
    let mut tuple = IndexTuple::new(body, nulls, count);
    tuple.read_key(columns.specs, key)?;
    let rest = tuple.read_more(columns.more)?;
    match tuple.packed {
        Some(column) => Err(KeyFault::Packed { column }),
        None => Ok(rest),
    }
}

/// The values of all columns of a leaf's index tuple, where they lie: those of the key, and after
/// them those that the index includes. Faults are those of [`key_attributes`] over both.
pub fn entry_attributes<'p>(
    columns: &IndexColumns<'_>,
    body: &'p [u8],
    nulls: Option<&'p [u8]>,
) -> Result<(KeyRefs<'p>, MoreRefs<'p>), KeyFault>
    ensures value { entry_shown result ≡ key_values (all_types columns.now) body.now (option_copied nulls.entry) }
    ensures key { IfOk result (λ both. length both.0 ≡ length columns.now.specs.now) }
    ensures fits { IfOk result (λ both. fits_columns columns.now.specs.now both.0 ≡ true) }
    ensures included { IfOk result (λ both. fits_more columns.now.more.now both.1 ≡ true) }
{
    let mut key = KeyRefs::new();
    let more = read_entry_attributes(columns, body, nulls, &mut key)?;
    Ok((key, more))
}

/// What the values of an index tuple say of its attributes, each answer for itself: they are the
/// values of the tuple's list of attributes, of which none stands elsewhere; or one is compressed, and
/// it is the first such; or the tuple has no such list.
pub fn key_values_are_attributes()
    ensures { (types : List Column) (body : List ℕ) (nulls : Option (List ℕ)) → All HasAlignment types
        → SaysOfAttributes types body nulls (key_values types body nulls) }
{}
