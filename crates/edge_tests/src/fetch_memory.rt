use crate::fetched::{failed, gives, is_missing, is_too_long};
use crate::memory::{appends, bytes_of};
use io_edge::{EdgeErr, Files, MemFiles, SureFiles};
use std::alloc::Global;
use std::test::Fail;
use wa_base::NoMemory;

// Whether a store gives each answer of a file `a` that holds `RIFF`, and of one `empty` that holds nothing.
fn answers<F: Files>(alloc: Global, files: &mut F) -> bool {
    gives(files.fetch(alloc, "a", 5), b"RIFF")
        && gives(files.fetch(alloc, "a", 4), b"RIFF")
        && is_too_long(files.fetch(alloc, "a", 3), 4)
        && is_too_long(files.fetch(alloc, "a", 0), 4)
        && gives(files.fetch(alloc, "empty", 0), b"")
        && gives(files.fetch(alloc, "a", u64::MAX), b"RIFF")
        && is_missing(files.fetch(alloc, "b", 4))
        && is_missing(files.fetch(alloc, "", 4))
}

fn sure_answers(alloc: Global, files: &mut SureFiles) -> Result<bool, NoMemory> {
    files.put("a", bytes_of(alloc, b"RIFF")?)?;
    files.put("empty", bytes_of(alloc, b"")?)?;
    Ok(
        answers(alloc, files)
            && match files.get("a") {
                Some(bytes) => bytes == b"RIFF".as_slice(),
                None => false,
            },
    )
}

fn mem_answers(alloc: Global, files: &mut MemFiles) -> Result<bool, NoMemory> {
    files.put("a", bytes_of(alloc, b"RIFF")?)?;
    files.put("empty", bytes_of(alloc, b"")?)?;
    files.fail_fetch(9)?;
    Ok(answers(alloc, files) && failed(files.fetch(alloc, "a", 4)))
}

#[test]
fn a_store_in_memory_gives_each_answer(rt: HostRuntime) -> Result<(), Fail> {
    let mut sure = SureFiles::new(rt.alloc());
    let sure_answered = sure_answers(rt.alloc(), &mut sure);
    drop(sure);
    let mut mem = MemFiles::new(rt.alloc());
    let mem_answered = mem_answers(rt.alloc(), &mut mem);
    drop(mem);
    assert!(rt; sure_answered?);
    assert!(rt; mem_answered?);
    Ok(())
}

// The calls of `fetch`, of `create` and of `append` are counted each by itself.
fn counts_apart(alloc: Global, files: &mut MemFiles) -> Result<bool, NoMemory> {
    files.put("a", bytes_of(alloc, b"RIFF")?)?;
    files.fail_fetch(2)?;
    files.fail_append(1)?;
    Ok(
        files.create("b") == Ok(())
            && gives(files.fetch(alloc, "a", 4), b"RIFF")
            && appends(files, "b", b"WAVE", Err(EdgeErr::Failed))
            && failed(files.fetch(alloc, "nowhere", 4))
            && appends(files, "b", b"WAVE", Ok(4))
            && gives(files.fetch(alloc, "b", 4), b"WAVE")
            && gives(files.fetch(alloc, "a", 4), b"RIFF"),
    )
}

#[test]
fn a_fetch_fails_where_it_was_told_to(rt: HostRuntime) -> Result<(), Fail> {
    let mut files = MemFiles::new(rt.alloc());
    let counted = counts_apart(rt.alloc(), &mut files);
    drop(files);
    assert!(rt; counted?);
    Ok(())
}
