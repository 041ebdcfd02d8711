use crate::child_helpers::ChildHelpers;
use crate::real_files::RealFiles;
use crate::stdout_sink::StdoutSink;
use act1_outside::{FileFault, Files, HelperFault, Helpers, Sink};
use std::fs;
use std::test::Fail;

// The system's own special files serve, so that no file is left behind.
#[test]
fn real_files_read_and_write(rt: HostRuntime) -> Result<(), Fail> {
    let mut files = RealFiles::new(&rt, rt.alloc());
    assert_eq!(rt; files.read(rt.alloc(), "/dev/null", 0)?.len(), 0);
    assert_eq!(rt;
        files.read(rt.alloc(), "/dev/zero", 10).err(),
        Some(FileFault::TooLong)
    );
    assert_eq!(rt;
        files.read(rt.alloc(), "/no/such/file", 10).err(),
        Some(FileFault::Failed)
    );
    files.write("/dev/null", b"text")?;
    assert_eq!(rt;
        files.write("/no/such/file", b"text").err(),
        Some(FileFault::Failed)
    );
    Ok(())
}

#[test]
fn standard_output_takes_bytes(rt: HostRuntime) -> Result<(), Fail> {
    let mut out = StdoutSink::new(&rt);
    out.put(b"printed\n")?;
    out.put(b"")?;
    Ok(())
}

// A file that isn't there is made, and then replaced; nothing is left beside it.
#[test]
fn real_files_are_whole(rt: HostRuntime) -> Result<(), Fail> {
    let mut files = RealFiles::new(&rt, rt.alloc());
    files.write("act1-test.txt", b"the first content")?;
    files.write("act1-test.txt", b"second")?;
    assert_eq!(rt;
        files.read(rt.alloc(), "act1-test.txt", 6)?.as_slice(),
        b"second".as_slice()
    );
    fs::remove_file(&rt, "act1-test.txt")?;
    assert_eq!(rt;
        files.read(rt.alloc(), ".act1-0.tmp", 10).err(),
        Some(FileFault::Failed)
    );
    Ok(())
}

// A program that isn't there, and one that gives no answer.
#[test]
fn child_helpers_fail(rt: HostRuntime) -> Result<(), Fail> {
    let mut helpers = ChildHelpers::new(&rt, rt.alloc());
    assert_eq!(rt;
        helpers.start("/no/such/program", b"a job").err(),
        Some(HelperFault::Failed)
    );
    let ticket = helpers.start("true", b"a job")?;
    assert_eq!(rt;
        helpers.finish(rt.alloc(), ticket).err(),
        Some(HelperFault::Failed)
    );
    Ok(())
}
