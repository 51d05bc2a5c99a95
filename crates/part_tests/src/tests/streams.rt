use gpu_io::{RealSink, RealSource, Sink, Source, SteadySink, SteadySource};
use std::alloc::{AllocError, Global};
use std::io::{self, ErrorKind, Read, Write};
use std::test::Fail;

// What five reads give: the bytes of each, or '!' for a fault, and then a '|'.
fn reads<S: Source>(alloc: Global, source: &mut S) -> Result<Vec<u8>, AllocError> {
    let mut trace = Vec::new(alloc);
    for _ in 0..5 {
        let mut buffer = [0; 8];
        match source.read(&mut buffer) {
            Ok(count) => trace.extend_from_slice(&buffer[..count])?,
            Err(_) => trace.push(b'!')?,
        }
        trace.push(b'|')?;
    }
    Ok(trace)
}

// How many bytes each of three writes takes, or none for a fault.
fn writes<K: Sink>(alloc: Global, sink: &mut K) -> Result<Vec<Option<usize>>, AllocError> {
    let mut counts = Vec::new(alloc);
    for _ in 0..3 {
        counts.push(sink.write(&SPECIAL).ok())?;
    }
    Ok(counts)
}

// The system's side of a stream, which gives one byte and takes two at most, and whose second call fails in
// this way.
#[derive(Drop)]
struct Wire {
    bytes: Vec<u8>,
    fault: ErrorKind,
    calls: u8,
}

impl Wire {
    fn turn(&mut self) -> io::Result<()> {
        self.calls = self.calls.saturating_add(1);
        if self.calls == 2 {
            return Err(io::Error::from(self.fault));
        }
        Ok(())
    }
}

impl Read for Wire {
    fn read(&mut self, buffer: &mut [u8]) -> io::Result<usize> {
        self.turn()?;
        match self.bytes.pop() {
            Some(byte) if !buffer.is_empty() => {
                buffer[0] = byte;
                Ok(1)
            }
            _ => Ok(0),
        }
    }
}

impl Write for Wire {
    fn write(&mut self, bytes: &[u8]) -> io::Result<usize> {
        self.turn()?;
        let count = bytes.len().min(2);
        self.bytes.extend_from_slice(&bytes[..count])?;
        Ok(count)
    }

    fn flush(&mut self) -> io::Result<()> {
        Ok(())
    }
}

// Ways in which the system fails, of which some would pass if the call was made again.
const FAULTS: [ErrorKind; 4] = [
    ErrorKind::Interrupted,
    ErrorKind::WouldBlock,
    ErrorKind::BrokenPipe,
    ErrorKind::ConnectionReset,
];

// Bytes that a terminal or a text would take for an end, a turn of a line or a mark.
const SPECIAL: [u8; 3] = [26, 10, 255];

#[test]
fn real_source_passes_on_what_the_system_gives(rt: HostRuntime) -> Result<(), Fail> {
    for fault in FAULTS {
        let bytes = Vec::from_slice(rt.alloc(), &SPECIAL)?;
        let mut source = RealSource::make(Wire {
            bytes,
            fault,
            calls: 0,
        });
        let trace = reads(rt.alloc(), &mut source)?;
        assert!(rt; trace.as_slice() == b"\xff|!|\n|\x1a||".as_slice());
    }
    Ok(())
}

#[test]
fn real_sink_passes_on_what_it_takes(rt: HostRuntime) -> Result<(), Fail> {
    for fault in FAULTS {
        let bytes = Vec::new(rt.alloc());
        let mut wire = Wire {
            bytes,
            fault,
            calls: 0,
        };
        let counts = writes(rt.alloc(), &mut RealSink::make(&mut wire))?;
        assert!(rt; counts.as_slice() == [Some(2), None, Some(2)].as_slice());
        assert!(rt; wire.bytes.as_slice() == b"\x1a\n\x1a\n".as_slice());
    }
    Ok(())
}

#[test]
fn steady_streams_end_where_their_bytes_or_room_end(rt: HostRuntime) -> Result<(), Fail> {
    let bytes = Vec::from_slice(rt.alloc(), &SPECIAL)?;
    let trace = reads(rt.alloc(), &mut SteadySource::make(bytes))?;
    assert!(rt; trace.as_slice() == b"\x1a\n\xff|||||".as_slice());
    let mut sink = SteadySink::make(rt.alloc(), 4)?;
    let counts = writes(rt.alloc(), &mut sink)?;
    assert!(rt; counts.as_slice() == [Some(3), Some(1), None].as_slice());
    assert!(rt; sink.bytes() == b"\x1a\n\xff\x1a".as_slice());
    Ok(())
}
