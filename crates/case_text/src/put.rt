//! Pairs that are put into a table of a document.
ghost use Rattle.std.specs.Prelude.{◌≡◌, pos, map, OnOk};
ghost use Rattle.toml.specs.Data.{boolean, integer, string, table};
ghost use Rattle.toml.specs.View.{table_view, view};
ghost use Rattle.case_text.specs.Written.{number_pairs, values, with_member, with_pairs};

use outside::NoMemory;
use std::alloc::Global;
use toml::{Table, Value};

/// Puts a value at a key.
#[tactic(auto, using(crate::proofs::Puts::put_laws))]
pub fn put(alloc: Global, out: &mut Table, key: &str, value: Value) -> Result<(), NoMemory>
    ensures { OnOk result (table_view out.new ≡ with_member key.now (view value) (table_view out.old)) }
{
    let key = String::from_str(alloc, key)?;
    drop(out.insert(key, value)?);
    Ok(())
}

/// Puts a text at a key.
pub fn put_text(alloc: Global, out: &mut Table, key: &str, text: &str) -> Result<(), NoMemory>
    ensures { OnOk result (table_view out.new ≡ with_member key.now (string text.now) (table_view out.old)) }
{
    let value = Value::string(alloc, text)?;
    put(alloc, out, key, value)
}

/// Puts a number at a key.
#[tactic(auto, using(crate::proofs::Puts::value_laws))]
pub fn put_number(alloc: Global, out: &mut Table, key: &str, n: u32) -> Result<(), NoMemory>
    ensures { OnOk result (table_view out.new ≡ with_member key.now (integer (pos n)) (table_view out.old)) }
{
    put(alloc, out, key, Value::Integer(i64::from(n)))
}

/// Puts a number at a key, where there is one.
pub fn put_number_if(
    alloc: Global,
    out: &mut Table,
    key: &str,
    n: Option<u32>,
) -> Result<(), NoMemory>
    ensures { OnOk result (table_view out.new ≡ with_pairs (number_pairs key.now n) (table_view out.old)) }
{
    match n {
        Some(n) => put_number(alloc, out, key, n),
        None => Ok(()),
    }
}

/// Puts a Boolean at a key.
#[tactic(auto, using(crate::proofs::Puts::value_laws))]
pub fn put_flag(alloc: Global, out: &mut Table, key: &str, flag: bool) -> Result<(), NoMemory>
    ensures { OnOk result (table_view out.new ≡ with_member key.now (boolean flag) (table_view out.old)) }
{
    put(alloc, out, key, Value::Boolean(flag))
}

/// Puts an array at a key.
#[tactic(auto, using(crate::proofs::Puts::value_laws))]
pub fn put_values(
    alloc: Global,
    out: &mut Table,
    key: &str,
    array: Vec<Value>,
) -> Result<(), NoMemory>
    ensures { OnOk result
        (table_view out.new ≡ with_member key.now (values (map view array.items)) (table_view out.old)) }
{
    put(alloc, out, key, Value::Array(array))
}

/// Puts a table at a key.
#[tactic(auto, using(crate::proofs::Puts::value_laws))]
pub fn put_table(alloc: Global, out: &mut Table, key: &str, inner: Table) -> Result<(), NoMemory>
    ensures { OnOk result
        (table_view out.new ≡ with_member key.now (table (table_view inner)) (table_view out.old)) }
{
    put(alloc, out, key, Value::Table(inner))
}
