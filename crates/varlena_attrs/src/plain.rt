//! The values that most attributes of an index tuple have, found by the least that tells them: one of a
//! fixed length, or a varlena with a header of one byte. A second way to them, for its speed alone: all
//! others go by `forms`.
ghost use Rattle.std.specs.Prelude.{◌≡◌, ◌+◌, ◌^◌, ◌<◌, ◌≤◌, ℕ, Ok, IfSome, drop, length, take};
ghost use Rattle.key_orders.specs.Types.{HasAlignment};
ghost use Rattle.varlena_attrs.specs.Forms.{Plain};
ghost use Rattle.varlena_attrs.specs.Reading.{fixed_at, start_of, stored_at, varlena_at};

use crate::forms::{Found, aligned, byte_at};
use crate::inline::is_short;
use crate::places::AttrPlace;
use key_orders::ColType;

/// Where the bytes of a value lie in a body: they end with the attribute.
#[derive(Clone, Copy)]
pub struct PlainPiece {
    /// The first of them, counted from 0.
    pub start: usize,
    /// How many they are.
    pub len: usize,
}

impl PlainPiece {
    /// The attribute that has these bytes.
    #[inline(always)]
    pub fn found(self) -> Found
        requires { self.start + self.len < 2 ^ 64 }
        ensures { result
            ≡ record { place = AttrPlace.Plain self.start self.len; next = self.start + self.len } }
    {
        Found {
            place: AttrPlace::Plain {
                start: self.start,
                len: self.len,
            },
            next: self.start + self.len,
        }
    }
}

// The content of a varlena with a header of one byte, if one stands here and doesn't pass the end.
#[inline(always)]
fn short_piece(body: &[u8], place: usize) -> Option<PlainPiece>
    requires within { place ≤ length body.now }
    ensures step { IfSome result (λ p. varlena_at body.now place
        ≡ Ok (Plain (take p.len (drop p.start body.now)), p.start + p.len)) }
    ensures start { IfSome result (λ p. (alignment : ℕ) → start_of alignment body.now place ≡ place) }
    ensures within { IfSome result (λ p. p.start + p.len ≤ length body.now) }
{
    let first = byte_at(body, place);
    if !is_short(first) {
        return None;
    }
    let len = first as usize / 2 - 1;
    if body.len() - place <= len {
        return None;
    }
    Some(PlainPiece {
        start: place + 1,
        len,
    })
}

// The bytes of a value of a fixed length, if they don't pass the end.
#[inline(always)]
#[tactic(auto, unfolding(crate::specs::Reading::fixed_at))]
fn fixed_piece(len: u16, body: &[u8], start: usize) -> Option<PlainPiece>
    requires small { start < 2 ^ 63 + 8 }
    ensures step { IfSome result (λ p. fixed_at len body.now start
        ≡ Ok (Plain (take p.len (drop p.start body.now)), p.start + p.len)) }
    ensures within { IfSome result (λ p. p.start + p.len ≤ length body.now) }
{
    let len = len as usize;
    if body.len() < start + len {
        return None;
    }
    Some(PlainPiece { start, len })
}

/// The bytes of the stored value of a type from a place on, if it is of a fixed length, or a varlena with a header of
/// one byte, and ends within the body; `None` says nothing.
#[inline(always)]
#[tactic(auto, unfolding(crate::specs::Reading::stored_at))]
pub fn plain_piece(ctype: ColType, body: &[u8], place: usize) -> Option<PlainPiece>
    requires known { HasAlignment ctype }
    requires within { place ≤ length body.now }
    ensures step { IfSome result (λ p. stored_at ctype body.now place
        ≡ Ok (Plain (take p.len (drop p.start body.now)), p.start + p.len)) }
    ensures within { IfSome result (λ p. p.start + p.len ≤ length body.now) }
{
    match ctype.fixed_length() {
        Some(len) => fixed_piece(len, body, aligned(ctype.alignment(), place)),
        None => short_piece(body, place),
    }
}
