use pdu_values::{SegmentRequest, SegmentRequests};
use std::alloc::{AllocError, Global};
use std::test::*;

const REQUEST: SegmentRequest = SegmentRequest { start: 4, end: 9 };

fn copied(alloc: Global) -> Result<SegmentRequests, AllocError> {
    let mut requests = SegmentRequests::with_capacity(alloc, 1)?;
    requests.push(REQUEST)?;
    requests.clone()
}

#[test]
fn copies_of_requests(rt: HostRuntime) -> Result<(), Fail> {
    assert!(rt; copied(rt.alloc())?.as_slice() == [REQUEST].as_slice());
    Ok(())
}
