//! What no clause says: that the calls that take memory succeed where memory is at hand.

use std::test::Fail;
use wf_io::{MemorySink, MemorySource, read_all};

#[test]
fn calls_have_memory(rt: HostRuntime) -> Result<(), Fail> {
    let alloc = rt.alloc();
    let mut source = MemorySource::new(vec![in alloc; 1, 2, 3]?, 2, Vec::new(alloc));
    let read = read_all(alloc, &mut source, 3).ok().ok_or("no memory")?;
    let sink = MemorySink::new(alloc, 3, Vec::new(alloc))?;
    assert_eq!(rt; (read.len(), sink.bytes().len()), (3, 0));
    Ok(())
}
