//! Files and sinks in memory whose calls fail: what reading and writing answers, and how often they failed.

ghost use Rattle.std.specs.Prelude.{◌≡◌, ◌∷◌, [], IfOk, vec_len, vec_capacity};
ghost use Rattle.base_core.specs.Device.{AreDistinct};
ghost use Rattle.base_core.specs.Memory.{files_of};

use base_core::{Failed, Files, MemoryFiles, MemorySink, ReadFault, Sink, Text, read_file};
use std::alloc::{AllocError, Global};
use std::test::Fail;

/// A file `long` of 40,000 zeros and an empty file `none`.
fn two(alloc: Global) -> Result<Vec<(Text, Vec<u8>)>, AllocError>
    ensures { IfOk result (λ v. AreDistinct (files_of v.items)) }
{
    let long = (
        Text::from_text(alloc, "long")?,
        vec![in alloc; 0u8; 40_000]?,
    );
    let none = (Text::from_text(alloc, "none")?, Vec::new(alloc));
    let files = Vec::from_array(alloc, [long, none])?;
    Ok(files)
}

/// What reading answers where these calls fail, with the length for the bytes, and the count of faults after it.
fn answer(
    alloc: Global,
    name: &str,
    limit: usize,
    failing: &[u64],
) -> Result<(Result<usize, ReadFault>, u64), AllocError> {
    let failing = Vec::from_slice(alloc, failing)?;
    let mut files = MemoryFiles::new(two(alloc)?, failing);
    let name = Text::from_text(alloc, name)?;
    let told = match read_file(alloc, &mut files, &name, limit) {
        Ok(bytes) => Ok(bytes.len()),
        Err(fault) => Err(fault),
    };
    Ok((told, Files::faults(&files)))
}

#[test]
fn files_that_fail(rt: HostRuntime) -> Result<(), Fail> {
    let alloc = rt.alloc();
    let rows: [(&str, usize, &[u64], Result<usize, ReadFault>, u64); 8] = [
        ("long", 40_000, &[], Ok(40_000), 0),
        ("long", 39_999, &[], Err(ReadFault::TooLong), 0),
        ("other", 9, &[], Err(ReadFault::Missing), 0),
        ("other", 9, &[1], Err(ReadFault::Failed), 1),
        ("long", 40_000, &[2], Err(ReadFault::Failed), 1),
        ("long", 40_000, &[7, 5], Err(ReadFault::Failed), 1),
        ("long", 40_000, &[6], Ok(40_000), 0),
        ("none", 0, &[0, 3], Ok(0), 0),
    ];
    for (name, limit, failing, want, faults) in rows {
        let told = answer(alloc, name, limit, failing)?;
        assert!(rt; told == (want, faults), "{name} {limit}");
    }
    Ok(())
}

#[test]
fn sinks_that_fail(rt: HostRuntime) -> Result<(), Fail> {
    let alloc = rt.alloc();
    let buffer = Vec::with_capacity(alloc, 5)?;
    let mut sink = MemorySink::new(buffer, 5, Vec::from_slice(alloc, &[2])?);
    let puts: [(&[u8], Result<(), Failed>, &[u8], u64); 4] = [
        (b"abc", Ok(()), b"abc", 0),
        (b"d", Err(Failed), b"abc", 1),
        (b"defg", Err(Failed), b"abcde", 2),
        (b"x", Err(Failed), b"abcde", 3),
    ];
    for (piece, want, written, faults) in puts {
        assert!(rt; sink.put(piece) == want);
        assert!(rt; sink.written() == written);
        assert!(rt; Sink::faults(&sink) == faults);
    }
    Ok(())
}
