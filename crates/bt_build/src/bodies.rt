//! The bodies of entries, laid from the values in the arena.
ghost use Rattle.std.specs.Prelude.{◌≡◌, ◌≤◌, All, IfOk, OnOk, length, map};
ghost use Rattle.key_orders.specs.Types.{HasAlignment};
ghost use Rattle.key_orders.specs.Values.{value_shown};
ghost use Rattle.key_storage.specs.Stored.{values_read};
ghost use Rattle.page_write.specs.Bodies.{IsShortEnough, body_flags, index_body};

use key_orders::{ColType, ValueRef};
use key_storage::read_value;
use outside::NoMemory;
use page_write::{BodyFlags, body_flags, put_index_body};

// Puts so many values, read one after the other, in the place of what the list held.
pub(crate) fn read_values<'a>(
    values: &mut Vec<ValueRef<'a>>,
    bytes: &'a [u8],
    count: usize,
) -> Result<(), NoMemory>
    ensures { OnOk result (map value_shown values.new.items ≡ values_read count bytes.now) }
{
    values.clear();
    let mut left = bytes;
    for _ in 0..count {
        let (value, rest) = read_value(left);
        values.push(value)?;
        left = rest;
    }
    Ok(())
}

// Puts the body of values, each in its column, in the place of what the buffer held.
pub(crate) fn put_body(
    body: &mut Vec<u8>,
    types: &[ColType],
    values: &[ValueRef<'_>],
) -> Result<BodyFlags, NoMemory>
    requires few { length values.now ≤ 32 }
    requires count { length values.now ≡ length types.now }
    requires aligned { All HasAlignment types.now }
    requires short { All (λ v. IsShortEnough (value_shown v)) values.now }
    ensures body { OnOk result (body.new.items ≡ index_body types.now (map value_shown values.now)) }
    ensures flags { IfOk result (λ flags. flags ≡ body_flags types.now (map value_shown values.now)) }
{
    put_index_body(body, types, values)?;
    Ok(body_flags(types, values))
}
