//! What the bytes of an index tuple tell of its key as they lie: whether it has the values of another, and its first.
ghost use Rattle.std.specs.Prelude.{◌≡◌, Ok, None, IfSome, length};
ghost use Rattle.std.specs.Bool.{OnTrue};
ghost use Rattle.key_orders.specs.Values.{value_shown};
ghost use Rattle.key_storage.specs.Stored.{values_read};
ghost use Rattle.key_attrs.specs.Columns.{all_types};
ghost use Rattle.key_attrs.specs.Keyed.{key_values};
ghost use Rattle.key_attrs.specs.FirstValues.{BeginsPlainKey};

use crate::columns::IndexColumns;
use crate::keyed::value_at;
use key_orders::ValueRef;
use key_storage::after_value;
use varlena_attrs::plain_piece;

/// Whether an index tuple without null bits, which has this body, has as its values those that are stored at the
/// beginning of these bytes, those of included columns among them, where each is found by the least that tells it: a
/// value of a fixed length, or a varlena with a header of one byte. `false` says nothing.
#[inline]
pub fn has_stored_key(columns: &IndexColumns<'_>, body: &[u8], stored: &[u8]) -> bool
    ensures { OnTrue result (key_values (all_types columns.now) body.now None
        ≡ Ok (values_read (length (all_types columns.now)) stored.now)) }
{
    let mut place = 0;
    let mut left = stored;
    for k in 0..columns.count() {
        let ctype = columns.type_at(k);
        let Some(piece) = plain_piece(ctype, body, place) else {
            return false;
        };
        let found = piece.found();
        let Some(rest) = after_value(left, value_at(ctype, body, found.place)) else {
            return false;
        };
        left = rest;
        place = found.next;
    }
    true
}

/// The first value of the key in an index tuple without null bits, which has this body, where each column, an included
/// one too, is found by the least that tells it: a value of a fixed length, or a varlena with a header of one byte.
/// `None` says nothing.
#[inline(always)]
pub fn plain_first_value<'p>(columns: &IndexColumns<'_>, body: &'p [u8]) -> Option<ValueRef<'p>>
    ensures { IfSome result (λ v.
        BeginsPlainKey columns.now.specs.now columns.now.more.now body.now (value_shown v)) }
{
    let specs = columns.specs;
    if specs.is_empty() {
        return None;
    }
    let ctype = specs[0].ctype;
    let found = plain_piece(ctype, body, 0)?.found();
    let value = value_at(ctype, body, found.place);
    let mut place = found.next;
    for k in 1..specs.len() {
        let piece = plain_piece(specs[k].ctype, body, place)?;
        place = piece.start + piece.len;
    }
    for included in columns.more {
        let piece = plain_piece(included.ctype, body, place)?;
        place = piece.start + piece.len;
    }
    Some(value)
}
