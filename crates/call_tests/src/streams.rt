// Each source and sink once, with a fault in the middle.
use ds_base::{
    Got, MemorySink, MemorySource, Put, QuietSink, QuietSource, Sink, Source, StdSink, StdSource,
};
use std::test::Fail;

#[test]
fn a_memory_source_fails_where_it_is_told(rt: HostRuntime) -> Result<(), Fail> {
    let alloc = rt.alloc();
    let mut source = MemorySource::build(b"abcdef".to_vec(alloc)?, vec![in alloc; 1]?, 4);
    let mut buf = [0u8; 8];
    for want in [
        Got::Bytes(4),
        Got::Failed,
        Got::Bytes(2),
        Got::End,
        Got::End,
    ] {
        assert_eq!(rt; source.read(&mut buf), want);
    }
    assert_eq!(rt; &buf[..2], b"ef".as_slice());
    assert_eq!(rt; source.unread(), b"".as_slice());
    Ok(())
}

#[test]
fn a_memory_sink_fails_where_it_is_told_or_full(rt: HostRuntime) -> Result<(), Fail> {
    let alloc = rt.alloc();
    let mut sink = MemorySink::build(alloc, 5, vec![in alloc; 1]?, 3)
        .ok()
        .ok_or("memory")?;
    for want in [Put::Took(3), Put::Failed, Put::Took(2), Put::Failed] {
        assert_eq!(rt; sink.write(b"abcd"), want);
    }
    assert_eq!(rt; sink.bytes(), b"abcab".as_slice());
    Ok(())
}

#[test]
fn quiet_streams_never_fail(rt: HostRuntime) -> Result<(), Fail> {
    let alloc = rt.alloc();
    let mut source = QuietSource::build(b"abc".to_vec(alloc)?, 2);
    let mut sink = QuietSink::build();
    let mut buf = [0u8; 8];
    for want in [Got::Bytes(2), Got::Bytes(1), Got::End] {
        assert_eq!(rt; source.read(&mut buf), want);
        sink.write(b"abcd");
    }
    assert_eq!(rt; sink.taken(), 12);
    Ok(())
}

#[test]
fn standard_streams_are_adapted(rt: HostRuntime) -> Result<(), Fail> {
    let alloc = rt.alloc();
    let mut source = StdSource::over(&b"abc"[..]);
    let mut buf = [0u8; 8];
    for want in [Got::Bytes(3), Got::End] {
        assert_eq!(rt; source.read(&mut buf), want);
    }
    let mut sink = StdSink::over(Vec::new(alloc));
    assert_eq!(rt; sink.write(b"abc"), Put::Took(3));
    Ok(())
}
