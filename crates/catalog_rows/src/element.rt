//! The one element of an array that a missing value is.
ghost use Rattle.std.specs.Prelude.{◌≡◌, ◌+◌, ◌^◌, ◌<◌, ◌≤◌, ℕ, List, Ok, length, true};
ghost use Rattle.std.specs.Option.{option_copied};
ghost use Rattle.key_orders.specs.declared.columns.ColType.{ColType};
ghost use Rattle.key_orders.specs.Types.{HasAlignment, alignment_of, is_alignment};
ghost use Rattle.varlena_attrs.specs.Reading.{aligned, stored_at};
ghost use Rattle.varlena_attrs.specs.Shown.{IsFoundWithin, shown_at};
ghost use Rattle.catalog_rows.specs.Element.{ending_at, missing_in};
ghost use Rattle.catalog_rows.specs.Laws.{MissingIsTold};

use crate::arrays::{is_array, stated_count};
use key_orders::ColType;
use varlena_attrs::{AttrPlace, Found, attribute_at};

// The least multiple of an alignment from a place on.
fn aligned(alignment: u8, place: usize) -> usize
    requires known { is_alignment alignment ≡ true }
    requires small { place < 2 ^ 63 }
    ensures { result ≡ aligned alignment place }
{
    match alignment {
        1 => place,
        2 => (place + 1) / 2 * 2,
        4 => (place + 3) / 4 * 4,
        _ => (place + 7) / 8 * 8,
    }
}

// The bytes of an attribute of a body that has them where it stands, if what is filled up behind it ends with the body.
fn value_ending<'c>(alignment: u8, body: &'c [u8], found: Found) -> Option<&'c [u8]>
    requires known { is_alignment alignment ≡ true }
    requires within { IsFoundWithin (length body.now) found }
    ensures { option_copied result
        ≡ ending_at alignment (length body.now) (Ok (shown_at body.now found.place, found.next)) }
{
    if aligned(alignment, found.next) != body.len() {
        return None;
    }
    match found.place {
        AttrPlace::Plain { start, len } => Some(&body[start..start + len]),
        AttrPlace::Null
        | AttrPlace::Missing
        | AttrPlace::Packed { .. }
        | AttrPlace::External { .. } => None,
    }
}

// The value that is stored in a body, if what is filled up behind it ends with the body.
#[tactic(auto, unfolding(varlena_attrs::specs::Attributes::presence_of))]
fn value_in<'c>(ctype: ColType, body: &'c [u8]) -> Option<&'c [u8]>
    requires { HasAlignment ctype }
    ensures { option_copied result ≡ ending_at (alignment_of ctype) (length body.now) (stored_at ctype body.now 0) }
{
    match attribute_at(ctype, body, None, 1, 0, 0) {
        Ok(found) => value_ending(ctype.alignment(), body, found),
        Err(_) => None,
    }
}

/// The value that is the one element of an array, of a type that its oid and its storage tell: the bytes as they are
/// stored, of a varlena those without its header. `None` exactly where the content, which is the array's without its
/// header, is no such array.
#[tactic(auto, unfolding(crate::specs::Element::missing_in))]
pub fn missing_element<'c>(type_oid: u32, ctype: ColType, content: &'c [u8]) -> Option<&'c [u8]>
    requires { HasAlignment ctype }
    ensures { option_copied result ≡ missing_in type_oid ctype content.now }
{
    if is_array(content, type_oid, 1) && stated_count(content) == 1 {
        return value_in(ctype, &content[20..]);
    }
    None
}

/// What is read of a content is the value that it has as an array of one element, and it has at most one.
pub fn element_is_told()
    ensures { (type_oid : ℕ) (ctype : ColType) (content value : List ℕ)
        → MissingIsTold type_oid ctype content value }
{}
