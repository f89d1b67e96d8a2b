//! What no clause says: that calls with ample memory succeed, and what the trusted edge does.

use fv_base::{
    FileFault, Files, MemFiles, MemOut, Out, OutFault, RealFiles, RealOut, SureFiles, SureOut,
};
use fv_text::{List, Text};
use std::alloc::Global;
use std::test::Fail;

fn pairs(alloc: Global) -> Result<Vec<(String, Vec<u8>)>, Fail> {
    let first = (String::from_str(alloc, "a.v")?, b"old".to_vec(alloc)?);
    let second = (String::from_str(alloc, "b.v")?, b"other".to_vec(alloc)?);
    let third = (String::from_str(alloc, "a.v")?, b"new".to_vec(alloc)?);
    Ok(vec![in alloc; first, second, third]?)
}

#[test]
fn texts_and_lists(rt: HostRuntime) -> Result<(), Fail> {
    let alloc = rt.alloc();
    let text = Text::from_bytes(alloc, b"clock")?;
    assert!(rt; text.is(b"clock"));
    assert!(rt; !text.copied(alloc)?.is(b"reset"));
    let mut list = List::new(alloc);
    list.push(3u8)?;
    list.push(4u8)?;
    if let Some(item) = list.get_mut(0) {
        *item = 7;
    }
    assert_eq!(rt; list.as_slice(), [7, 4].as_slice());
    assert!(rt; list.get(2).is_none());
    Ok(())
}

/// A later pair of one name replaces an earlier one; a name that isn't held is absent.
#[test]
fn sure_files(rt: HostRuntime) -> Result<(), Fail> {
    let alloc = rt.alloc();
    let mut files = SureFiles::new(alloc, pairs(alloc)?)?;
    let read = files.read(alloc, b"a.v")?;
    assert_eq!(rt; read.as_slice(), b"new".as_slice());
    assert!(rt; matches!(files.read(alloc, b"c.v"), Err(FileFault::Absent)));
    files.write(alloc, b"c.v", b"made")?;
    assert_eq!(rt; files.get("c.v"), Some(b"made".as_slice()));
    Ok(())
}

/// Calls 1 and 2 of four fail, held or not, and a failed write leaves the file as it was.
#[test]
fn files_that_fail(rt: HostRuntime) -> Result<(), Fail> {
    let alloc = rt.alloc();
    let mut files = MemFiles::new(alloc, pairs(alloc)?, vec![in alloc; 1, 2]?)?;
    assert!(rt; files.read(alloc, b"b.v").is_ok());
    assert!(rt; matches!(files.read(alloc, b"c.v"), Err(FileFault::Failed)));
    assert!(rt; matches!(files.write(alloc, b"b.v", b"x"), Err(FileFault::Failed)));
    assert_eq!(rt; files.get("b.v"), Some(b"other".as_slice()));
    files.write(alloc, b"b.v", b"x")?;
    assert_eq!(rt; files.get("b.v"), Some(b"x".as_slice()));
    Ok(())
}

#[test]
fn output(rt: HostRuntime) -> Result<(), Fail> {
    let alloc = rt.alloc();
    let mut sure = SureOut::new(alloc);
    sure.put(b"pass ")?;
    sure.put(b"ill_ch0\n")?;
    assert_eq!(rt; sure.sent(), b"pass ill_ch0\n".as_slice());
    let mut out = MemOut::new(alloc, vec![in alloc; 1]?);
    out.reserve(6)?;
    out.put(b"one")?;
    assert!(rt; matches!(out.put(b"two"), Err(OutFault::Failed)));
    out.put(b"six")?;
    assert_eq!(rt; out.sent(), b"onesix".as_slice());
    Ok(())
}

/// The trusted edge: a file that is written is read back, and what isn't there, isn't UTF-8 or is a directory is told
/// apart.
#[test]
fn real_files(rt: HostRuntime) -> Result<(), Fail> {
    let alloc = rt.alloc();
    let mut files = RealFiles::new(&rt);
    files.write(alloc, b"fv_base_real_files", b"bytes \xff")?;
    let read = files.read(alloc, b"fv_base_real_files")?;
    assert_eq!(rt; read.as_slice(), b"bytes \xff".as_slice());
    std::fs::remove_file(&rt, "fv_base_real_files")?;
    assert!(rt;
        matches!(
            files.read(alloc, b"fv_base_real_files"),
            Err(FileFault::Absent)
        )
    );
    assert!(rt; matches!(files.read(alloc, b"\xff"), Err(FileFault::Absent)));
    assert!(rt; matches!(files.read(alloc, b"."), Err(FileFault::Failed)));
    assert!(rt; matches!(files.write(alloc, b"\xff", b""), Err(FileFault::Failed)));
    Ok(())
}

#[test]
fn real_output(rt: HostRuntime) -> Result<(), Fail> {
    RealOut::new(&rt).put(b"put\n")?;
    Ok(())
}
