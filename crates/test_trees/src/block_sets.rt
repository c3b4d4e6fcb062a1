//! A set of blocks.
use bt_level_check::BlockSet;
use std::process::Abort;
use std::test::Fail;

#[test]
fn a_set_has_the_blocks_that_were_added(rt: HostRuntime) -> Result<(), Fail> {
    let mut set = BlockSet::new(rt.alloc(), 9)?;
    assert_eq!(rt; (set.has(0), set.has(8)), (false, false));
    set.add(8);
    set.add(0);
    set.add(8);
    assert_eq!(rt; (set.has(0), set.has(7), set.has(8)), (true, false, true));
    Ok(())
}
