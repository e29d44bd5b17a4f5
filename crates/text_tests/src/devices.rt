use grd_io::{
    Failed, HostShelf, HostSink, MemoryShelf, MemorySink, ReadFault, Shelf, ShelfFault,
    append_whole, read_whole, write_whole,
};
use std::alloc::{AllocError, Global};
use std::fs;
use std::rt::Files;
use std::test::Fail;

/// The byte at a place of `many_bytes`. No two neighbours are equal.
fn byte_at(n: u32) -> u8 {
    (n % 251) as u8
}

/// So many bytes, each by its place.
fn many_bytes(alloc: Global, len: u32) -> Result<Vec<u8>, AllocError> {
    let mut bytes = Vec::new(alloc);
    for n in 0..len {
        bytes.push(byte_at(n))?;
    }
    Ok(bytes)
}

/// A shelf with an empty file and one that is longer than a read, whose second call fails.
fn two_files(alloc: Global) -> Result<MemoryShelf, AllocError> {
    let empty = (String::from_str(alloc, "empty")?, Vec::new(alloc));
    let long = (
        String::from_str(alloc, "long")?,
        many_bytes(alloc, 100_000)?,
    );
    let files = vec![in alloc; empty, long]?;
    Ok(MemoryShelf::new(alloc, files, vec![in alloc; 2]?))
}

/// How many of the bytes are those of `many_bytes`.
fn count_same(bytes: &[u8]) -> u32 {
    let mut count = 0u32;
    for byte in bytes {
        if *byte == byte_at(count) {
            count = count.saturating_add(1);
        }
    }
    count
}

/// How many bytes are read, where they are the first of `many_bytes`.
fn count_read<F: Shelf>(
    alloc: Global,
    shelf: &mut F,
    name: &str,
    limit: u64,
) -> Result<u32, ReadFault> {
    let bytes = read_whole(alloc, shelf, name, limit)?;
    Ok(count_same(&bytes))
}

fn file_len(shelf: &MemoryShelf, name: &str) -> Option<usize> {
    Some(shelf.file(name)?.len())
}

/// The reads of a shelf, and what comes of them. The second call is the second read of the long file.
const READS: &[(&str, u64, Result<u32, ReadFault>)] = &[
    ("long", 100_000, Err(ReadFault::Failed)),
    ("long", 100_000, Ok(100_000)),
    ("long", 99_999, Err(ReadFault::TooLong(99_999))),
    ("empty", 0, Ok(0)),
    ("missing", 9, Err(ReadFault::Failed)),
];

#[test]
fn whole_files_are_read_from_memory(rt: HostRuntime) -> Result<(), Fail> {
    let mut shelf = two_files(rt.alloc())?;
    for (name, limit, want) in READS {
        let found = count_read(rt.alloc(), &mut shelf, name, *limit);
        assert_eq!(rt; found, *want, "{name}");
    }
    assert_eq!(rt; file_len(&shelf, "empty"), Some(0));
    assert_eq!(rt; file_len(&shelf, "missing"), None);
    Ok(())
}

/// Pieces that are written, and what comes of them. The second write fails.
const PIECES: &[(&str, Result<(), Failed>)] = &[
    ("one ", Ok(())),
    ("two ", Err(Failed)),
    ("three", Ok(())),
];

#[test]
fn pieces_are_written_to_memory(rt: HostRuntime) -> Result<(), Fail> {
    let mut sink = MemorySink::new(rt.alloc(), vec![in rt.alloc(); 2]?);
    for (piece, want) in PIECES {
        assert_eq!(rt; write_whole(&mut sink, piece.as_bytes()), *want, "{piece}");
    }
    assert!(rt; sink.written() == b"one three".as_slice());
    Ok(())
}

/// The reads of the host's files, and what comes of them.
const HOST_READS: &[(&str, u64, Result<u32, ReadFault>)] = &[
    ("grd_io_empty", 0, Ok(0)),
    ("grd_io_long", 100_000, Ok(100_000)),
    ("grd_io_long", 99_999, Err(ReadFault::TooLong(99_999))),
    ("grd_io_missing", 9, Err(ReadFault::Failed)),
];

#[test]
fn files_of_the_host_are_written_and_read(rt: HostRuntime) -> Result<(), Fail> {
    for (name, len) in [("grd_io_empty", 0), ("grd_io_long", 100_000)] {
        let bytes = many_bytes(rt.alloc(), len)?;
        let mut file = HostSink::new(fs::create(&rt, name)?);
        assert_eq!(rt; write_whole(&mut file, &bytes), Ok(()), "{name}");
    }

    // A file that is open for reading takes no bytes.
    let mut closed = HostSink::new(fs::open(&rt, "grd_io_long")?);
    assert_eq!(rt; write_whole(&mut closed, b"more"), Err(Failed));

    let mut shelf = HostShelf::new(&rt, rt.alloc());
    for (name, limit, want) in HOST_READS {
        let found = count_read(rt.alloc(), &mut shelf, name, *limit);
        assert_eq!(rt; found, *want, "{name}");
    }
    fs::remove_file(&rt, "grd_io_empty")?;
    fs::remove_file(&rt, "grd_io_long")?;
    Ok(())
}

/// Makes a file where no piece is given, and else appends the piece to it.
fn put<R: Files>(
    shelf: &mut HostShelf<'_, R>,
    name: &str,
    piece: Option<&str>,
) -> Result<(), ShelfFault> {
    match piece {
        None => shelf.create(name),
        Some(piece) => append_whole(shelf, name, piece.as_bytes()),
    }
}

/// Files of the host that are made, pieces that are appended to them, and what comes of it.
const HOST_WRITES: &[(&str, Option<&str>, Result<(), ShelfFault>)] = &[
    // No file was made yet.
    ("grd_io_made", Some("early"), Err(ShelfFault::Failed)),
    ("grd_io_made", None, Ok(())),
    ("grd_io_made", Some("gone"), Ok(())),
    // What was there is gone.
    ("grd_io_made", None, Ok(())),
    ("grd_io_made", Some("one "), Ok(())),
    ("grd_io_made", Some(""), Ok(())),
    ("grd_io_made", Some("two "), Ok(())),
    // Names that can't be made: in no folder, under a file, of a folder, and in a folder where
    // nobody makes files.
    ("grd_io_no_folder/made", None, Err(ShelfFault::Failed)),
    ("grd_io_made/under", None, Err(ShelfFault::Failed)),
    (".", None, Err(ShelfFault::Failed)),
    ("/proc/grd_io_made", None, Err(ShelfFault::Failed)),
    // The file that was made last takes bytes still, and no other does.
    ("grd_io_made", Some("three"), Ok(())),
    ("grd_io_other", None, Ok(())),
    ("grd_io_made", Some("late"), Err(ShelfFault::Failed)),
    ("grd_io_made", Some(""), Ok(())),
    ("grd_io_other", Some("end"), Ok(())),
];

/// Whether a file of a shelf has just these bytes.
fn holds<F: Shelf>(
    alloc: Global,
    shelf: &mut F,
    name: &str,
    bytes: &[u8],
) -> Result<bool, ReadFault> {
    let found = read_whole(alloc, shelf, name, 100)?;
    Ok(found.as_slice() == bytes)
}

/// What the files hold then.
const HOST_TEXTS: &[(&str, &str)] = &[("grd_io_made", "one two three"), ("grd_io_other", "end")];

#[test]
fn files_of_the_host_are_made_and_grow(rt: HostRuntime) -> Result<(), Fail> {
    let mut shelf = HostShelf::new(&rt, rt.alloc());
    for (name, piece, want) in HOST_WRITES {
        assert_eq!(rt; put(&mut shelf, name, *piece), *want, "{name}");
    }
    for (name, text) in HOST_TEXTS {
        assert_eq!(rt;
            holds(rt.alloc(), &mut shelf, name, text.as_bytes()),
            Ok(true),
            "{name}"
        );
        fs::remove_file(&rt, *name)?;
    }
    Ok(())
}

/// How many bytes the devices are given, and how many of a step's calls take them.
const LEN: u32 = 100;

const STEPS: &[(usize, u64)] = &[(1, 100), (8, 13), (64, 2)];

/// How a file was made, written and read, where the call of a number fails: whether all calls
/// passed, and how many right bytes the file has then.
fn made_in_steps(
    alloc: Global,
    step: usize,
    failing: u64,
) -> Result<(bool, Option<u32>), AllocError> {
    let files = vec![in alloc; (String::from_str(alloc, "kept")?, many_bytes(alloc, 7)?)]?;
    let mut shelf = MemoryShelf::in_steps(alloc, files, vec![in alloc; failing]?, step.max(1));
    let bytes = many_bytes(alloc, LEN)?;
    let passed = is_made(alloc, &mut shelf, &bytes);
    Ok((passed, shelf.file("made").map(count_same)))
}

/// Makes, writes and reads a file of a shelf, and answers whether no call failed.
fn is_made(alloc: Global, shelf: &mut MemoryShelf, bytes: &[u8]) -> bool {
    if shelf.create("made").is_err() {
        return false;
    }
    if append_whole(shelf, "made", bytes).is_err() {
        return false;
    }
    count_read(alloc, shelf, "made", 100) == Ok(LEN)
}

/// The bytes that were taken before a call of a writing, from 0, that fails.
fn taken_before(step: usize, call: u64) -> u32 {
    call.saturating_mul(step as u64).min(LEN as u64) as u32
}

#[test]
fn each_call_of_a_shelf_may_fail(rt: HostRuntime) -> Result<(), Fail> {
    for (step, writes) in STEPS {
        // One call makes the file, and one more than those that write it read it.
        for failing in 1..2 * *writes + 4 {
            let want = if failing == 1 {
                None
            } else {
                Some(taken_before(*step, failing - 2))
            };
            let passed = failing > 2 * *writes + 2;
            let found = made_in_steps(rt.alloc(), *step, failing)?;
            assert_eq!(rt; found, (passed, want), "{step} {failing}");
        }
    }
    Ok(())
}

/// Whether bytes were written to a sink where the call of a number fails, and how many it has.
fn written_in_steps(alloc: Global, step: usize, failing: u64) -> Result<(bool, u32), AllocError> {
    let mut sink = MemorySink::in_steps(alloc, vec![in alloc; failing]?, step.max(1));
    let bytes = many_bytes(alloc, LEN)?;
    let passed = write_whole(&mut sink, &bytes).is_ok();
    Ok((passed, count_same(sink.written())))
}

#[test]
fn each_call_of_a_sink_may_fail(rt: HostRuntime) -> Result<(), Fail> {
    for (step, writes) in STEPS {
        for failing in 1..*writes + 2 {
            let want = (failing > *writes, taken_before(*step, failing - 1));
            let found = written_in_steps(rt.alloc(), *step, failing)?;
            assert_eq!(rt; found, want, "{step} {failing}");
        }
    }
    Ok(())
}
