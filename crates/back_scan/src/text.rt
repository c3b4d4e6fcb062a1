//! The line that prints an entry.
ghost use Rattle.std.specs.Prelude.{◌≡◌, ◌++◌, IfOk, OnOk, map};
ghost use Rattle.std.specs.List.{flat_map};
ghost use Rattle.key_orders.specs.Values.{value_shown};
ghost use Rattle.back_scan.specs.Texts.{entry_text, next_text, value_text, values_text};

use key_orders::{KeyRefs, Octets, Tid, ValueRef};
use outside::NoMemory;
use std::alloc::Global;
use text_writer::{TextWriter, push_hexadecimal};

// Adds a value.
#[tactic(auto, unfolding(crate::specs::Texts::value_text))]
fn push_value(text: &mut TextWriter, value: ValueRef<'_>) -> Result<(), NoMemory>
    ensures { OnOk result (text.new ≡ text.old ++ value_text (value_shown value.entry)) }
{
    match value {
        ValueRef::Null => text.push_slice(b"null"),
        ValueRef::Bool(false) => text.push_slice(b"false"),
        ValueRef::Bool(true) => text.push_slice(b"true"),
        ValueRef::Int(n) => text.push_number(n),
        ValueRef::Bytes(bytes) => {
            text.push(b'x')?;
            push_hexadecimal(text, bytes)
        }
    }
}

// Adds another value after one.
#[tactic(auto, unfolding(crate::specs::Texts::next_text))]
fn push_next(text: &mut TextWriter, value: ValueRef<'_>) -> Result<(), NoMemory>
    ensures { OnOk result (text.new ≡ text.old ++ next_text (value_shown value.entry)) }
{
    text.push(b',')?;
    push_value(text, value)
}

// Adds the values after the first.
fn push_others(text: &mut TextWriter, values: &[ValueRef<'_>]) -> Result<(), NoMemory>
    ensures { OnOk result (text.new ≡ text.old ++ flat_map next_text (map value_shown values.now)) }
{
    for v in values {
        push_next(text, *v)?;
    }
    Ok(())
}

// Adds the values of a key, with commas between them.
#[tactic(auto, unfolding(crate::specs::Texts::values_text))]
fn push_values(text: &mut TextWriter, values: &[ValueRef<'_>]) -> Result<(), NoMemory>
    ensures { OnOk result (text.new ≡ text.old ++ values_text (map value_shown values.now)) }
{
    match values {
        [] => Ok(()),
        [first, rest @ ..] => {
            push_value(text, *first)?;
            push_others(text, rest)
        }
    }
}

/// Adds the line of an entry: `entry`, the values of its key with commas between them, `tid`, and the block and the
/// item of its TID. A value is `null`, `false`, `true`, a number in decimal, or `x` and its bytes in hexadecimal.
#[tactic(auto, unfolding(crate::specs::Texts::entry_text))]
pub fn push_entry_line(text: &mut TextWriter, key: &KeyRefs<'_>, tid: Tid) -> Result<(), NoMemory>
    ensures { OnOk result (text.new ≡ text.old ++ entry_text key.now tid) }
{
    text.push_slice(b"entry ")?;
    push_values(text, key.as_slice())?;
    text.push_slice(b" tid ")?;
    text.push_decimal(tid.block as u64)?;
    text.push(b' ')?;
    text.push_decimal(tid.item as u64)?;
    text.push(b'\n')
}

/// That line alone.
pub fn entry_line(alloc: Global, key: &KeyRefs<'_>, tid: Tid) -> Result<Octets, NoMemory>
    ensures { IfOk result (λ text. text ≡ entry_text key.now tid) }
{
    let mut text = TextWriter::new(alloc);
    push_entry_line(&mut text, key, tid)?;
    text.finish()
}
