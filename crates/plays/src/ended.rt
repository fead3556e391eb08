//! How a run ended.

use crate::words::write_line;
use itoa::Buffer;
use std::io::Write;

/// The exit status, the output, and what was written of faults.
#[derive(Drop)]
pub struct PlayEnd {
    pub status: u8,
    pub written: Vec<u8>,
    pub errors: Vec<u8>,
}

impl PlayEnd {
    /// Writes the output, the exit status on a line of its own, and what was written of faults.
    pub fn print<W: Write>(&self, out: &mut W) -> anyhow::Result<()> {
        out.write_all(self.written.as_slice())?;
        write_line(out, &["\nstatus ", Buffer::new().format(self.status)])?;
        out.write_all(self.errors.as_slice())?;
        Ok(())
    }
}
