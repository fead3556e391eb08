//! A writer that keeps nothing.

ghost use Rattle.std.specs.Prelude.{◌≡◌, Ok, length};

use std::io::{self, Write};

/// Takes all bytes, and keeps none.
#[derive(Drop)]
pub struct Nowhere;

impl Write for Nowhere {
    fn write(&mut self, buf: &[u8]) -> io::Result<usize>
        ensures { result ≡ Ok (length buf.now) }
    {
        Ok(buf.len())
    }

    fn flush(&mut self) -> io::Result<()> {
        Ok(())
    }
}
