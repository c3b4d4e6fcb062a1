//! The table of types: what the values of each are, how they are stored, and whether it may be a key.
ghost use Rattle.std.specs.Prelude.{◌≡◌, false, length, true};
ghost use Rattle.key_orders.specs.Orders.{fits_type};
ghost use Rattle.key_orders.specs.Types.{HasLength, alignment_of, fixed_length, may_be_key, type_of};
ghost use Rattle.key_orders.specs.Values.{value_in, value_shown};

use crate::columns::{ColType, ValueRef};

/// What the values of a type are besides Null, for whom a contract tells of types.
#[derive(Clone, Copy, Debug, PartialEq, Eq)]
pub enum ValueKind {
    /// `Value::Bool`.
    Flag,
    /// `Value::Int` of a range, stored with a sign or without.
    Number { signed: bool, low: i64, high: i64 },
    /// `Value::Bytes`.
    Octets,
}

// A line of the table.
#[derive(Clone, Copy, Debug, PartialEq, Eq)]
pub(crate) struct TypeRow {
    pub(crate) kind: ValueKind,
    // The bytes of each value; none for a varlena.
    pub(crate) len: Option<u16>,
    // The number of which an aligned value's place is a multiple.
    pub(crate) alignment: u8,
    pub(crate) may_be_key: bool,
}

const INT2: ValueKind = ValueKind::Number {
    signed: true,
    low: -32768,
    high: 32767,
};

const INT4: ValueKind = ValueKind::Number {
    signed: true,
    low: -2147483648,
    high: 2147483647,
};

const INT8: ValueKind = ValueKind::Number {
    signed: true,
    low: i64::MIN,
    high: i64::MAX,
};

const UINT4: ValueKind = ValueKind::Number {
    signed: false,
    low: 0,
    high: 4294967295,
};

#[inline]
fn key_row(kind: ValueKind, len: Option<u16>, alignment: u8) -> TypeRow
    ensures { result ≡ record { kind = kind; len = len; alignment = alignment; may_be_key = true } }
{
    TypeRow {
        kind,
        len,
        alignment,
        may_be_key: true,
    }
}

#[inline]
fn stored_row(len: Option<u16>, alignment: u8) -> TypeRow
    ensures { result ≡ record { kind = ValueKind.Octets; len = len; alignment = alignment; may_be_key = false } }
{
    TypeRow {
        kind: ValueKind::Octets,
        len,
        alignment,
        may_be_key: false,
    }
}

// The line of a type.
#[inline]
pub(crate) fn type_of(ctype: ColType) -> TypeRow
    ensures { result ≡ type_of ctype }
{
    match ctype {
        ColType::Bool => key_row(ValueKind::Flag, Some(1), 1),
        ColType::Int2 => key_row(INT2, Some(2), 2),
        ColType::Int4 => key_row(INT4, Some(4), 4),
        ColType::Int8 => key_row(INT8, Some(8), 8),
        ColType::Uuid => key_row(ValueKind::Octets, Some(16), 1),
        ColType::Text => key_row(ValueKind::Octets, None, 4),
        ColType::Bytea => key_row(ValueKind::Octets, None, 4),
        ColType::Oid => key_row(UINT4, Some(4), 4),
        ColType::Date => key_row(INT4, Some(4), 4),
        ColType::Timestamp => key_row(INT8, Some(8), 8),
        ColType::Timestamptz => key_row(INT8, Some(8), 8),
        ColType::Fixed { len, align } => stored_row(Some(len), align),
        ColType::Varlena { align } => stored_row(None, align),
    }
}

impl ColType {
    /// The bytes of each value of a type of fixed length; `None` for a varlena, whose values have
    /// lengths of their own.
    #[inline]
    pub fn fixed_length(self) -> Option<u16>
        ensures { result ≡ fixed_length self }
    {
        type_of(self).len
    }

    /// The number of bytes of which an aligned value's place is a multiple.
    #[inline]
    pub fn alignment(self) -> u8
        ensures { result ≡ alignment_of self }
    {
        type_of(self).alignment
    }

    /// Whether a column of this type may be one of an index key.
    #[inline]
    pub fn may_be_key(self) -> bool
        ensures { result ≡ may_be_key self }
    {
        type_of(self).may_be_key
    }
}

/// The value that the bytes of a column are: integers have their lowest byte first, and all but
/// `Oid` are signed; a bool byte other than 0 is true; a varlena is its content without its header.
/// The value fits the column.
#[inline]
#[tactic(auto, unfolding(crate::specs::Values::value_in))]
pub fn value_of<'p>(ctype: ColType, piece: &'p [u8]) -> ValueRef<'p>
    requires { HasLength ctype (length piece.now) }
    ensures value { value_shown result ≡ value_in ctype piece.now }
    ensures fits { fits_type ctype (value_shown result) ≡ true }
{
    match ctype {
        ColType::Bool => ValueRef::Bool(piece[0] != 0),
        ColType::Int2 => {
            ValueRef::Int(u16::from_le_bytes([piece[0], piece[1]]).cast_signed() as i64)
        }
        ColType::Int4 | ColType::Date => ValueRef::Int(
            u32::from_le_bytes([piece[0], piece[1], piece[2], piece[3]]).cast_signed() as i64,
        ),
        ColType::Oid => ValueRef::Int(i64::from(u32::from_le_bytes([
            piece[0], piece[1], piece[2], piece[3],
        ]))),
        ColType::Int8 | ColType::Timestamp | ColType::Timestamptz => {
            ValueRef::Int(u64::from_le_bytes([
                piece[0], piece[1], piece[2], piece[3], piece[4], piece[5], piece[6], piece[7],
            ])
            .cast_signed())
        }
        ColType::Uuid
        | ColType::Text
        | ColType::Bytea
        | ColType::Fixed { .. }
        | ColType::Varlena { .. } => ValueRef::Bytes(piece),
    }
}
