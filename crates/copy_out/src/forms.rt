//! How the values of each type are written.
ghost use Rattle.std.specs.Prelude.{◌≡◌};
ghost use Rattle.copy_out.specs.Fields.{form_of};

use key_orders::ColType;

/// How the values of a type are written.
#[derive(Clone, Copy, Debug, PartialEq, Eq)]
pub(crate) enum Form {
    /// `t` or `f`.
    Letter,
    /// A number in decimal.
    Decimal,
    /// Hexadecimal digits in groups.
    Grouped,
    /// The bytes, with escapes.
    Escaped,
    /// `\\x` and hexadecimal digits.
    Digits,
}

/// How the values of a type are written.
#[inline]
pub(crate) fn form_of(ctype: ColType) -> Form
    ensures { result ≡ form_of ctype }
{
    match ctype {
        ColType::Bool => Form::Letter,
        ColType::Int2
        | ColType::Int4
        | ColType::Int8
        | ColType::Oid
        | ColType::Date
        | ColType::Timestamp
        | ColType::Timestamptz => Form::Decimal,
        ColType::Uuid => Form::Grouped,
        ColType::Text => Form::Escaped,
        ColType::Bytea | ColType::Fixed { .. } | ColType::Varlena { .. } => Form::Digits,
    }
}
