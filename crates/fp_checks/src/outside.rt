use fp_base::Row;
use fp_outside::{
    Files, Gate, HostFiles, HostSink, MemFiles, MemSink, OpenGate, ReadRefusal, Sink, SureFiles,
};
use std::test::Fail;

/// Whether a read answered this.
fn shown(answer: Result<Option<Row<u8>>, ReadRefusal>, wanted: &str) -> bool {
    match answer {
        Ok(Some(bytes)) => bytes.as_slice() == wanted.as_bytes(),
        Ok(None) => wanted == "none",
        Err(ReadRefusal::Failed) => wanted == "failed",
        Err(ReadRefusal::NoMemory) => wanted == "no memory",
    }
}

#[test]
fn files_in_memory(rt: HostRuntime) -> Result<(), Fail> {
    let alloc = rt.alloc();
    let mut files = MemFiles::new(alloc);
    files.hold(alloc, "a", b"first")?;
    files.hold(alloc, "b", b"second")?;
    files.hold(alloc, "a", b"third")?;
    files.fail_at(3)?;
    let mut sure = SureFiles::new(alloc);
    sure.hold(alloc, "a", b"third")?;
    for (name, wanted) in [
        ("a", "third"),
        ("b", "second"),
        ("b", "failed"),
        ("c", "none"),
    ] {
        assert!(rt; shown(files.read(alloc, name), wanted), "{name}");
    }
    assert_eq!(rt; (files.reads, files.faults, files.misses), (4, 1, 1));
    assert!(rt; shown(sure.read(alloc, "a"), "third"));
    assert!(rt; shown(sure.read(alloc, "b"), "none"));
    Ok(())
}

#[test]
fn a_sink_in_memory(rt: HostRuntime) -> Result<(), Fail> {
    let alloc = rt.alloc();
    let mut sink = MemSink::new(alloc, 3, 8)?;
    sink.fail_at(2)?;
    for (piece, wanted) in [
        ("abcde", Some(3)),
        ("de", None),
        ("", Some(0)),
        ("de", Some(2)),
        ("fghi", Some(3)),
        ("i", None),
        ("", Some(0)),
    ] {
        assert_eq!(rt; sink.write(piece.as_bytes()).ok(), wanted, "{piece}");
    }
    assert_eq!(rt; sink.bytes(), b"abcdefgh".as_slice());
    OpenGate.hold(0, 0);
    OpenGate.pass(0, 1);
    Ok(())
}

#[test]
fn a_name_that_no_system_has(rt: HostRuntime) -> Result<(), Fail> {
    let mut files = HostFiles::new(&rt);
    assert!(rt; shown(files.read(rt.alloc(), "a\0b"), "failed"));
    assert_eq!(rt; (files.faults, files.misses), (1, 0));
    assert_eq!(rt; HostSink::new(rt.stderr()).write(b"").ok(), Some(0));
    Ok(())
}
