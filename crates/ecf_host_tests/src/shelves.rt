//! Shelves in memory.

use ecf_edge::{Fetch, MemShelf, Shelf, SureShelf};
use std::alloc::{AllocError, Global};
use std::test::Fail;

fn files(alloc: Global) -> Result<Vec<(String, Vec<u8>)>, AllocError> {
    let mut files = Vec::new(alloc);
    for (name, content) in [("bank", "one"), ("empty", ""), ("bank", "another")] {
        let name = String::from_str(alloc, name)?;
        files.push((name, content.as_bytes().to_vec(alloc)?))?;
    }
    Ok(files)
}

fn sure(alloc: Global) -> Result<SureShelf, AllocError> {
    Ok(SureShelf::new(files(alloc)?))
}

fn planned(alloc: Global, fails: &[u64]) -> Result<MemShelf, AllocError> {
    Ok(MemShelf::new(files(alloc)?, fails.to_vec(alloc)?))
}

/// What a fetch brings, or its fault.
fn fetched<F: Shelf>(
    alloc: Global,
    shelf: &mut F,
    name: &str,
    most: usize,
) -> Result<String, AllocError> {
    match shelf.fetch(alloc, name, most) {
        Ok(content) => String::from_utf8_lossy(alloc, content.as_slice()),
        Err(fault) => format!(in alloc; "{fault:?}"),
    }
}

/// What a fetch brings, and how many have failed.
fn fetched_counted(
    alloc: Global,
    shelf: &mut MemShelf,
    name: &str,
    most: usize,
) -> Result<(String, u64), AllocError> {
    let text = fetched(alloc, shelf, name, most)?;
    Ok((text, shelf.faults()))
}

#[test]
fn a_content_is_fetched_whole(rt: HostRuntime) -> Result<(), Fail> {
    let alloc = rt.alloc();
    let mut sure = sure(alloc)?;
    let mut planned = planned(alloc, &[])?;
    for (name, most, want) in [
        ("bank", 3, "one"),
        ("bank", 2, "TooLong"),
        ("empty", 0, ""),
        ("ban", 100, "Missing"),
        ("", 100, "Missing"),
    ] {
        let text = fetched(alloc, &mut sure, name, most)?;
        assert_eq!(rt; text.as_str(), want);
        let (text, faults) = fetched_counted(alloc, &mut planned, name, most)?;
        assert_eq!(rt; text.as_str(), want);
        assert_eq!(rt; faults, 0);
    }
    Ok(())
}

#[test]
fn a_fetch_fails_as_planned(rt: HostRuntime) -> Result<(), Fail> {
    let alloc = rt.alloc();
    let mut shelf = planned(alloc, &[1, 3])?;
    for (want, faults) in [("Failed", 1), ("one", 1), ("Failed", 2), ("one", 2)] {
        let (text, count) = fetched_counted(alloc, &mut shelf, "bank", 3)?;
        assert_eq!(rt; text.as_str(), want);
        assert_eq!(rt; count, faults);
    }
    Ok(())
}

#[test]
fn faults_have_texts(rt: HostRuntime) -> Result<(), Fail> {
    let alloc = rt.alloc();
    let text = format!(in alloc;
        "{}; {}; {}; {}",
        Fetch::Failed,
        Fetch::Missing,
        Fetch::TooLong,
        Fetch::NoMemory
    )?;
    assert_eq!(rt;
        text.as_str(),
        "the fetch failed; nothing has that name; the content is too long; out of memory"
    );
    Ok(())
}
