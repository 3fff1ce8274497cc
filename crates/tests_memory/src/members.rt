//! What no clause says: that `new` succeeds where memory is at hand.

use std::test::Fail;
use wf_members::Members;

#[test]
fn new_has_memory(rt: HostRuntime) -> Result<(), Fail> {
    let members = Members::new(rt.alloc(), 2, 1)?;
    assert_eq!(rt; members.first(7), None);
    Ok(())
}
