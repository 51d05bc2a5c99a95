ghost use Rattle.std.specs.Prelude.{◌<◌, ◌^◌};

use gpu_io::{MemorySource, ReadError, read_all, read_within};
use std::alloc::{AllocError, Global};
use std::test::Fail;

// What reading `abcde` gives in pieces of two bytes, where the reads of these numbers fail.
fn read_letters(
    alloc: Global,
    most: usize,
    fails: &[u32],
) -> Result<Result<Vec<u8>, ReadError>, AllocError>
    requires { most < 2 ^ 63 }
{
    let bytes = Vec::from_slice(alloc, b"abcde")?;
    let fails = Vec::from_slice(alloc, fails)?;
    let mut source = MemorySource::make(bytes, 2, fails);
    Ok(read_within(alloc, &mut source, most, &mut [0; 8]))
}

fn is_text(read: Result<Vec<u8>, ReadError>, wanted: &[u8]) -> bool {
    match read {
        Ok(bytes) => bytes.as_slice() == wanted,
        Err(_) => false,
    }
}

#[test]
fn reading_stops_at_the_first_fault_or_byte_past_the_limit(rt: HostRuntime) -> Result<(), Fail> {
    for (most, failing, is_long) in [
        (4, 9, true),
        (3, 2, false),
        (1, 2, true),
        (1, 1, false),
        (5, 4, false),
    ] {
        let is_wanted = match read_letters(rt.alloc(), most, &[failing])? {
            Err(ReadError::TooLong) => is_long,
            Err(ReadError::Fault) => !is_long,
            _ => false,
        };
        assert!(rt; is_wanted, "{failing} fails, and {most} are allowed");
    }
    let read = read_letters(rt.alloc(), 5, &[])?;
    assert!(rt; is_text(read, b"abcde"));
    Ok(())
}

#[test]
fn a_whole_text_is_read(rt: HostRuntime) -> Result<(), Fail> {
    let bytes = Vec::from_slice(rt.alloc(), b"abc")?;
    let mut source = MemorySource::make(bytes, 1, Vec::new(rt.alloc()));
    let read = read_all(rt.alloc(), &mut source, 3);
    assert!(rt; is_text(read, b"abc"));
    Ok(())
}
