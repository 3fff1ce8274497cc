//! What no clause says: that `new` succeeds where memory is at hand.

use std::test::Fail;
use wf_links::Links;

#[test]
fn new_has_memory(rt: HostRuntime) -> Result<(), Fail> {
    let mut links = Links::new(rt.alloc(), 3, 2)?;
    links.insert_above(1, 2, None);
    assert_eq!(rt; (links.lowest(0), links.lowest(1)), (None, Some(2)));
    Ok(())
}
