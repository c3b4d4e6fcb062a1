//! The line that prints an entry of an index.
use back_scan::entry_line;
use key_orders::{KeyRefs, Tid, ValueRef};
use std::test::Fail;

#[test]
fn a_line_of_each_kind_of_value(rt: HostRuntime) -> Result<(), Fail> {
    let mut key = KeyRefs::new();
    key.push(ValueRef::Int(-5));
    key.push(ValueRef::Null);
    key.push(ValueRef::Bool(true));
    key.push(ValueRef::Bytes(b"\x00\xfe"));
    let tid = Tid {
        block: 70000,
        item: 3,
    };
    let line = entry_line(rt.alloc(), &key, tid)?;
    let want = b"entry -5,null,true,x00fe tid 70000 3\n";
    assert!(rt; line.as_slice() == want.as_slice());
    Ok(())
}
