//! What no clause says: that a map of names has memory for one more.

use std::test::Fail;
use wf_names::NameMap;

#[test]
fn a_name_has_memory(rt: HostRuntime) -> Result<(), Fail> {
    let mut map = NameMap::new(rt.alloc());
    let before = map.insert(b"first", 1)?;
    let again = map.insert(b"first", 2)?;
    assert_eq!(rt;
        (before, again, map.get(b"first")),
        (None, Some(1), Some(2))
    );
    Ok(())
}
