//! What no clause says: that the calls that take memory succeed where memory is at hand. And a value's last holder gets it.

use std::test::Fail;
use wf_life::{Handles, Kind, NoMemory, Pool};

#[test]
fn calls_have_memory(rt: HostRuntime) -> Result<(), Fail> {
    let made = Handles::new(rt.alloc()).make(Kind::Stream, 10);
    let mut pool = Pool::new(rt.alloc());
    let (Ok(first), Ok(second)) = (pool.put(7), pool.put(8)) else {
        return Err(Fail::from(NoMemory));
    };
    pool.retain(first);
    let released = [pool.release(first), pool.release(first)];
    let left = (pool.get(first), pool.get(second));
    assert_eq!(rt;
        (made, released, left),
        (Ok(1), [None, Some(7)], (None, Some(&8)))
    );
    Ok(())
}
