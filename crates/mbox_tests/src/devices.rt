//! Devices that fail after each number of bytes, pass few at once, and are interrupted.
use mail_core::Memory;
use mbox_core::device::{
    Counted, ReadError, Sink, Source, Tap, WriteFault, read_all, write_bytes, write_two_slices,
};
use std::alloc::Global;
use std::io::{self, ErrorKind, Read, Write};
use std::test::Fail;

const TEXT: &[u8] = b"From anna@example.org\n";

/// A reader that gives at most three bytes at once, and is interrupted before every other read.
#[derive(Drop)]
struct Slow<'a> {
    rest: &'a [u8],
    interrupted: bool,
}

impl<'a> Read for Slow<'a> {
    fn read(&mut self, buffer: &mut [u8]) -> io::Result<usize> {
        self.interrupted = !self.interrupted;
        if self.interrupted {
            return Err(io::Error::from(ErrorKind::Interrupted));
        }
        let count = buffer.len().min(self.rest.len()).min(3);
        buffer[..count].copy_from_slice(&self.rest[..count]);
        self.rest = &self.rest[count..];
        Ok(count)
    }
}

/// A writer that takes at most three bytes at once, is interrupted before every other write, and takes none
/// once it is full.
#[derive(Drop)]
struct Narrow {
    room: usize,
    interrupted: bool,
}

impl Write for Narrow {
    fn write(&mut self, bytes: &[u8]) -> io::Result<usize> {
        self.interrupted = !self.interrupted;
        if self.interrupted {
            return Err(io::Error::from(ErrorKind::Interrupted));
        }
        let count = bytes.len().min(self.room).min(3);
        self.room -= count;
        Ok(count)
    }

    fn flush(&mut self) -> io::Result<()> {
        Ok(())
    }
}

/// Whether a sink that holds something and passes so many bytes takes just these of a text.
fn takes_so_many(alloc: Global, passes: usize) -> Result<bool, Memory> {
    let mut tap = Tap::new(alloc, b"kept ", passes)?;
    let answer = write_bytes(&mut tap, TEXT);
    let passed = passes.min(TEXT.len());
    Ok(
        is_stop(answer, passes, TEXT.len())
            && tap.bytes().len() == 5 + passed
            && &tap.bytes()[5..] == &TEXT[..passed],
    )
}

/// Whether writing `whole` bytes to a device that passes so many ended as it has to.
fn is_stop(answer: Result<(), WriteFault>, passes: usize, whole: usize) -> bool {
    match answer {
        Ok(()) => passes >= whole,
        Err(fault) => passes < whole && fault.written == passes as u64,
    }
}

#[test]
fn a_sink_that_fails_after_each_number_of_bytes(rt: HostRuntime) -> Result<(), Fail> {
    for passes in 0..TEXT.len() + 2 {
        assert!(rt; takes_so_many(rt.alloc(), passes)?, "after {passes}");
    }
    Ok(())
}

/// Whether a sink that passes so many bytes takes just these of two pieces.
fn takes_two(alloc: Global, passes: usize) -> Result<bool, Memory> {
    let mut tap = Tap::new(alloc, b"", passes)?;
    let answer = write_two_slices(&mut tap, b"From ", b"anna\n");
    Ok(is_stop(answer, passes, 10) && tap.bytes() == &b"From anna\n"[..passes.min(10)])
}

#[test]
fn two_pieces_to_a_sink_that_fails_after_each_number_of_bytes(rt: HostRuntime) -> Result<(), Fail> {
    for passes in 0..12 {
        assert!(rt; takes_two(rt.alloc(), passes)?, "after {passes}");
    }
    Ok(())
}

/// Whether a text is read to its end from a source that passes more bytes than it has, and from no other.
fn gives_so_many(alloc: Global, passes: usize) -> Result<bool, Memory> {
    let mut tap = Tap::new(alloc, TEXT, passes)?;
    let well = match read_all(alloc, &mut tap) {
        Ok(text) => passes > TEXT.len() && text.as_slice() == TEXT,
        Err(stop) => passes <= TEXT.len() && stop == ReadError::Read,
    };
    Ok(well && tap.bytes() == TEXT)
}

#[test]
fn a_source_that_fails_after_each_number_of_bytes(rt: HostRuntime) -> Result<(), Fail> {
    for passes in 0..TEXT.len() + 3 {
        assert!(rt; gives_so_many(rt.alloc(), passes)?, "after {passes}");
    }
    Ok(())
}

/// Whether a device passes no byte and fails just where one is asked for.
fn passes_none(tap: &mut Tap) -> bool {
    let mut buffer = [0u8; 4];
    Source::read(tap, &mut buffer).is_err()
        && Source::read(tap, &mut []) == Ok(0)
        && Sink::write(tap, b"c").is_err()
        && Sink::write(tap, b"") == Ok(0)
        && write_bytes(tap, b"").is_ok()
}

#[test]
fn a_device_that_passes_no_byte_takes_and_gives_nothing(rt: HostRuntime) -> Result<(), Fail> {
    let mut tap = Tap::new(rt.alloc(), b"ab", 0)?;
    let well = passes_none(&mut tap);
    assert!(rt; well && tap.bytes() == b"ab".as_slice());
    Ok(())
}

#[test]
fn a_device_gives_what_was_written_to_it(rt: HostRuntime) -> Result<(), Fail> {
    let mut tap = Tap::new(rt.alloc(), b"ab", 7)?;
    let taken = write_bytes(&mut tap, b"cd").is_ok();
    let text = read_all(rt.alloc(), &mut tap)?;
    assert!(rt; taken && text.as_slice() == b"abcd".as_slice());
    Ok(())
}

#[test]
fn room_that_is_not_there_is_refused(rt: HostRuntime) -> Result<(), Fail> {
    assert!(rt; Tap::new(rt.alloc(), b"ab", usize::MAX).is_err());
    Ok(())
}

#[test]
fn short_and_interrupted_reads_lose_no_byte(rt: HostRuntime) -> Result<(), Fail> {
    let mut input = Counted::new(Slow {
        rest: TEXT,
        interrupted: false,
    });
    assert_eq!(rt; read_all(rt.alloc(), &mut input)?.as_slice(), TEXT);
    Ok(())
}

#[test]
fn short_and_interrupted_writes_lose_no_byte(rt: HostRuntime) -> Result<(), Fail> {
    for room in 0..TEXT.len() + 2 {
        let mut out = Counted::new(Narrow {
            room,
            interrupted: false,
        });
        let answer = write_bytes(&mut out, TEXT);
        assert!(rt; answer.is_ok() == (room >= TEXT.len()), "room for {room}");
        if let Err(fault) = answer {
            assert!(rt; fault.written == room as u64, "room for {room}");
        }
    }
    Ok(())
}

#[test]
fn a_text_longer_than_one_read_is_read_whole(rt: HostRuntime) -> Result<(), Fail> {
    let long = vec![in rt.alloc(); 7u8; 300_000]?;
    let mut input = Counted::new(long.as_slice());
    let text = read_all(rt.alloc(), &mut input)?;
    assert!(rt; text == long);
    Ok(())
}
