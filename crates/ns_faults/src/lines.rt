//! Lines on standard error.

ghost use Rattle.std.specs.Prelude.{◌≡◌, ◌≢◌};
ghost use Rattle.std.specs.IoError.{error_kind};
ghost use Rattle.ns_faults.specs.Lines.{TriesToWrite, line_of, mismatch_line, no_text_line, status_of};

use crate::status::{BAD_WORDS, MISMATCH, OUT_OF_MEMORY, READ_FAULT, WRITE_FAULT};
use ns_http::{ConnFault, Counted, write_all};
use std::io::{self, ErrorKind, Write};

/// Writes the bytes, or as many of them as the writer takes.
pub fn print_text<E: Write>(errors: &mut Counted<E>, bytes: &[u8])
    ensures { TriesToWrite E.contents errors.old errors.new bytes.now }
{
    let _ = write_all(errors, bytes);
}

/// Writes the line of the fault, and returns its exit status.
pub fn print_fault<E: Write>(fault: ConnFault, errors: &mut Counted<E>) -> u8
    ensures status { result ≡ status_of fault }
    ensures line { TriesToWrite E.contents errors.old errors.new (line_of fault) }
{
    match fault {
        ConnFault::Read => {
            print_text(errors, b"read fault\n");
            READ_FAULT
        }
        ConnFault::Write => {
            print_text(errors, b"write fault\n");
            WRITE_FAULT
        }
        ConnFault::Memory => {
            print_text(errors, b"out of memory\n");
            OUT_OF_MEMORY
        }
    }
}

/// Writes that a server's log differs from the replies to its threads, and returns the exit status.
pub fn print_mismatch<E: Write>(errors: &mut Counted<E>) -> u8
    ensures status { result ≡ MISMATCH }
    ensures line { TriesToWrite E.contents errors.old errors.new mismatch_line }
{
    print_text(errors, b"mismatch\n");
    MISMATCH
}

/// Writes the line of a read fault, because the system gave no random bits, and returns its exit
/// status.
pub fn print_no_random<E: Write>(errors: &mut Counted<E>) -> u8
    ensures status { result ≡ READ_FAULT }
    ensures line { TriesToWrite E.contents errors.old errors.new (line_of ConnFault.Read) }
{
    print_fault(ConnFault::Read, errors)
}

/// Writes why the words of the command line could not be read, and returns the exit status.
pub fn print_no_words<E: Write>(error: &io::Error, errors: &mut Counted<E>) -> u8
    ensures out_of_memory { error_kind error.now ≡ ErrorKind.OutOfMemory → (result ≡ OUT_OF_MEMORY)
        × TriesToWrite E.contents errors.old errors.new (line_of ConnFault.Memory) }
    ensures no_text { error_kind error.now ≢ ErrorKind.OutOfMemory → (result ≡ BAD_WORDS)
        × TriesToWrite E.contents errors.old errors.new no_text_line }
{
    if error.kind() == ErrorKind::OutOfMemory {
        return print_fault(ConnFault::Memory, errors);
    }
    print_text(errors, b"error: a word is no text\n");
    BAD_WORDS
}
