//! Sources and sinks in memory, call by call.

use replay_run::{Failed, Sink, SinkFault, SinkOf, SinkOk, Source, SourceOf, SourceOk};
use std::test::Fail;

#[test]
fn calls_fail_as_listed(rt: HostRuntime) -> Result<(), Fail> {
    let alloc = rt.alloc();
    let mut buf = [0u8; 4];
    let mut source = SourceOk::new(Vec::from_slice(alloc, b"ab")?);
    assert!(rt; source.read(&mut buf[..1]) == Ok(1) && buf[0] == b'a');
    assert!(rt; source.read(&mut buf) == Ok(1) && buf[0] == b'b');
    let mut source = SourceOf::new(
        Vec::from_slice(alloc, b"ab")?,
        Vec::from_slice(alloc, &[0, 2])?,
    );
    assert!(rt; source.read(&mut buf) == Err(Failed));
    assert!(rt; source.read(&mut buf) == Ok(2) && buf[0] == b'a' && buf[1] == b'b');
    assert!(rt; source.read(&mut buf) == Err(Failed));
    assert!(rt; source.read(&mut buf) == Ok(0));
    let mut sink = SinkOk::new(alloc);
    assert!(rt; sink.write(b"a") == Ok(1) && sink.bytes() == b"a".as_slice());
    let mut sink = SinkOf::new(alloc, Vec::from_slice(alloc, &[1])?);
    assert!(rt; sink.write(b"a") == Ok(1));
    assert!(rt; sink.write(b"b") == Err(SinkFault::Failed));
    assert!(rt; sink.write(b"c") == Ok(1) && sink.bytes() == b"ac".as_slice());
    Ok(())
}
