//! What no clause says: that there is memory for a place of a Job.

use std::test::Fail;
use wf_calls::JobPlace;

#[test]
fn a_place_has_memory(rt: HostRuntime) -> Result<(), Fail> {
    let place = JobPlace::new(rt.alloc())?;
    assert_eq!(rt; place.is_held(), false);
    Ok(())
}
