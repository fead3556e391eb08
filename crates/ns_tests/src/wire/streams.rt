// Readers and writers that are slow or fail.
use std::alloc::Global;
use std::io::{self, ErrorKind, Read, Write};

/// Gives at most `step` bytes a read, and fails after `left` reads.
#[derive(Drop)]
pub(crate) struct Slow<'a> {
    pub(crate) rest: &'a [u8],
    pub(crate) step: usize,
    pub(crate) left: usize,
}

impl Read for Slow<'_> {
    fn read(&mut self, buf: &mut [u8]) -> io::Result<usize> {
        if self.left == 0 {
            return Err(io::Error::from(ErrorKind::ConnectionReset));
        }
        self.left -= 1;
        let count = self.step.min(buf.len()).min(self.rest.len());
        let (front, rest) = self.rest.split_at(count);
        buf[..count].copy_from_slice(front);
        self.rest = rest;
        Ok(count)
    }
}

/// Takes at most `step` bytes a write, and `room` bytes in all. Then it fails if `fails` is set, and otherwise takes nothing.
#[derive(Drop)]
pub(crate) struct Narrow {
    pub(crate) bytes: Vec<u8>,
    pub(crate) step: usize,
    pub(crate) room: usize,
    pub(crate) fails: bool,
}

impl Write for Narrow {
    fn write(&mut self, buf: &[u8]) -> io::Result<usize> {
        if self.room == 0 && self.fails {
            return Err(io::Error::from(ErrorKind::BrokenPipe));
        }
        let count = self.step.min(buf.len()).min(self.room);
        self.room -= count;
        self.bytes.extend_from_slice(&buf[..count])?;
        Ok(count)
    }

    fn flush(&mut self) -> io::Result<()> {
        Ok(())
    }
}

/// A writer that takes all bytes.
pub(crate) fn wide(alloc: Global) -> Narrow {
    Narrow {
        bytes: Vec::new(alloc),
        step: usize::MAX,
        room: usize::MAX,
        fails: false,
    }
}

/// A reader that gives all bytes, at most `step` a read.
pub(crate) fn giving(rest: &[u8], step: usize) -> Slow<'_> {
    Slow {
        rest,
        step,
        left: usize::MAX,
    }
}
