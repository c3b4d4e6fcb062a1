//! The attributes of a tuple that are asked for, one after the other, without a list of them: none is read
//! behind the last.
ghost use Rattle.std.specs.Prelude.{◌≡◌, ◌+◌, ◌<◌, ◌≤◌, Err, List, Some, length, slice_get};
ghost use Rattle.std.specs.Prelude.{IfErr, IfOk, IfSome, All};
ghost use Rattle.std.specs.Option.{IsSomeAnd, option_copied};
ghost use Rattle.key_orders.specs.Types.{HasAlignment};
ghost use Rattle.key_orders.specs.declared.columns.ColType.{ColType as Column};
ghost use Rattle.varlena_attrs.specs.Attributes.{presence_of};
ghost use Rattle.varlena_attrs.specs.Forms.{Attribute};
ghost use Rattle.varlena_attrs.specs.Inline.{IsLayout};
ghost use Rattle.varlena_attrs.specs.InTurn.{AreRead, EndsAt, IsAttributeOf, IsReadOn};
ghost use Rattle.varlena_attrs.specs.Reading.{attribute_at};
ghost use Rattle.varlena_attrs.specs.Shown.{IsFoundWithin, IsWithin, shown_at, step_shown};
ghost use Rattle.varlena_attrs.specs.declared.places.AttrPlace.TheVariants as Place;

use crate::forms::{Cause, Found, attribute_at, is_null};
use crate::inline::fixed_next;
use crate::places::AttrPlace;
use crate::plain::{PlainPiece, plain_piece};
use key_orders::ColType;
use std::marker::Model;

// The attribute of column k, counted from 0, from a place on: by the least that tells it, where that finds it.
#[inline(always)]
fn attribute_soon(
    ctype: ColType,
    body: &[u8],
    nulls: Option<&[u8]>,
    natts: u16,
    k: usize,
    place: usize,
) -> Result<Found, Cause>
    requires known { HasAlignment ctype }
    requires within { place ≤ length body.now }
    ensures step { step_shown body.now result
        ≡ attribute_at (presence_of (option_copied nulls.entry) natts k) ctype body.now place }
    ensures within { IfOk result (IsFoundWithin (length body.now)) }
{
    if k < natts as usize && !is_null(nulls, k) {
        if let Some(piece) = plain_piece(ctype, body, place) {
            return Ok(piece.found());
        }
    }
    attribute_at(ctype, body, nulls, natts, k, place)
}

// The place after the attribute of column k, counted from 0, from a place on: one of a fixed length is passed
// without a look at its bytes.
#[inline(always)]
fn place_after(
    ctype: ColType,
    body: &[u8],
    nulls: Option<&[u8]>,
    natts: u16,
    k: usize,
    place: usize,
) -> Result<usize, Cause>
    requires known { HasAlignment ctype }
    requires within { place ≤ length body.now }
    ensures next { IfOk result (λ next.
        EndsAt (attribute_at (presence_of (option_copied nulls.entry) natts k) ctype body.now place) next) }
    ensures fault { IfErr result (λ cause.
        attribute_at (presence_of (option_copied nulls.entry) natts k) ctype body.now place ≡ Err cause) }
    ensures within { IfOk result (λ next. next ≤ length body.now) }
{
    if k < natts as usize && !is_null(nulls, k) {
        match fixed_next(ctype, place) {
            Some(next) if next <= body.len() => return Ok(next),
            _ => {}
        }
    }
    match attribute_soon(ctype, body, nulls, natts, k, place) {
        Ok(found) => Ok(found.next),
        Err(cause) => Err(cause),
    }
}

/// A tuple whose attributes are read one after the other: those of columns in their order are each read once,
/// and for a column before the last that was read the tuple is read from its start again. Contracts see the
/// tuple, `TupleParts`, which stays the same.
#[derive(Drop)]
pub struct TupleColumns<'p> {
    columns: &'p [ColType],
    body: &'p [u8],
    nulls: Option<&'p [u8]>,
    natts: u16,
    // The next column, and where it begins.
    column: usize,
    place: usize,
}

impl<'p> Model for TupleColumns<'p> {
    ghost use Rattle.std.specs.Option.{option_copied};
    ghost use Rattle.varlena_attrs.specs.InTurn.{IsReadOn, TupleParts};

    ghost Value = { TupleParts };

    ghost view = { λ t. record {
      columns = t.columns.now;
      body = t.body.now;
      nulls = option_copied t.nulls;
      natts = t.natts;
    } };

    ghost invariant = { λ t. IsReadOn (record {
      columns = t.columns.now;
      body = t.body.now;
      nulls = option_copied t.nulls;
      natts = t.natts;
    }) t.column t.place };
}

// The attribute of column k, where the columns before `from` are read, and column `from` begins at a place.
fn read_on(
    columns: &[ColType],
    body: &[u8],
    nulls: Option<&[u8]>,
    natts: u16,
    from: (usize, usize),
    k: usize,
) -> Option<Found>
    requires from { IsReadOn (record {
      columns = columns.now;
      body = body.now;
      nulls = option_copied nulls;
      natts = natts;
    }) from.0 from.1 }
    requires order { from.0 ≤ k }
    requires inside { k < length columns.now }
    ensures read { (list : List Attribute) → AreRead (record {
      columns = columns.now;
      body = body.now;
      nulls = option_copied nulls.entry;
      natts = natts;
    }) list
        → IsSomeAnd result (λ found. slice_get list k ≡ Some (shown_at body.now found.place)) }
    ensures next { IfSome result (λ found. IsReadOn (record {
      columns = columns.now;
      body = body.now;
      nulls = option_copied nulls.entry;
      natts = natts;
    }) (k + 1) found.next) }
    ensures within { IfSome result (λ found. IsWithin (length body.now) found.place) }
    ensures fits { IfSome result (λ found. (ctype : Column) → slice_get columns.now k ≡ Some ctype
        → IsAttributeOf ctype body.now (shown_at body.now found.place)) }
{
    let mut place = from.1;
    for j in from.0..k {
        match place_after(columns[j], body, nulls, natts, j, place) {
            Ok(next) => place = next,
            Err(_) => return None,
        }
    }
    match attribute_soon(columns[k], body, nulls, natts, k, place) {
        Ok(found) => Some(found),
        Err(_) => None,
    }
}

impl<'p> TupleColumns<'p> {
    /// A tuple with these columns, from its body. Null bits and count are those of `AttrBuffer::read`. It reads
    /// nothing yet.
    #[inline]
    pub fn new(
        columns: &'p [ColType],
        body: &'p [u8],
        nulls: Option<&'p [u8]>,
        natts: u16,
    ) -> TupleColumns<'p>
        requires { All HasAlignment columns.now }
        ensures { result ≡ record {
          columns = columns.now;
          body = body.now;
          nulls = option_copied nulls.entry;
          natts = natts;
        } }
    {
        TupleColumns {
            columns,
            body,
            nulls,
            natts,
            column: 0,
            place: 0,
        }
    }

    /// Its body, in which the places lie.
    #[inline]
    pub fn body(&self) -> &'p [u8]
        ensures { result.now ≡ self.now.body }
    {
        self.body
    }

    /// The value of a column, counted from 0, that begins at a place ([`column_start`](crate::column_start)), where
    /// the least tells it: the tuple has no nulls, and the value is of a fixed length or a varlena with a header of
    /// one byte. `None` says nothing.
    #[inline]
    pub fn plain_value(&self, k: usize, start: usize) -> Option<PlainPiece>
        requires inside { k < length self.now.columns }
        ensures read { (list : List Attribute) → IsLayout self.now.columns k start → AreRead self.now list
            → IfSome result (λ p. slice_get list k ≡ Some (shown_at self.now.body (Place.Plain p.start p.len))) }
        ensures within { IfSome result (λ p. p.start + p.len ≤ length self.now.body) }
        ensures fits { IfSome result (λ p. (ctype : Column) → slice_get self.now.columns k ≡ Some ctype
            → IsAttributeOf ctype self.now.body (shown_at self.now.body (Place.Plain p.start p.len))) }
    {
        if self.nulls.is_some() || self.natts as usize <= k || self.body.len() < start {
            return None;
        }
        plain_piece(self.columns[k], self.body, start)
    }

    /// The attribute of a column, counted from 0, by its place in the body; `None` only where it or one before
    /// it can't be read.
    pub fn attribute(&mut self, k: usize) -> Option<AttrPlace>
        requires { k < length self.old.columns }
        ensures read { (list : List Attribute) → AreRead self.old list
            → IsSomeAnd result (λ at. slice_get list k ≡ Some (shown_at self.old.body at)) }
        ensures within { IfSome result (IsWithin (length self.old.body)) }
        ensures fits { IfSome result (λ at. (ctype : Column) → slice_get self.old.columns k ≡ Some ctype
            → IsAttributeOf ctype self.old.body (shown_at self.old.body at)) }
        ensures same { self.new ≡ self.old }
    {
        if k < self.column {
            self.column = 0;
            self.place = 0;
        }
        let from = (self.column, self.place);
        match read_on(self.columns, self.body, self.nulls, self.natts, from, k) {
            Some(found) => {
                self.column = k + 1;
                self.place = found.next;
                Some(found.place)
            }
            None => None,
        }
    }
}
