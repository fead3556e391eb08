//! The words of a line.

use std::io::{self, Write};

/// The error for a part whose first line lacks a word, or has a wrong one.
pub const BAD_HEAD: &str = "a bad first line";

/// The bootstrap secret of a server whose part names none.
pub const ROOT: &str = "root";

/// The first word, and what follows the space after it.
pub fn first_word(text: &str) -> (&str, &str) {
    match text.split_once(' ') {
        Some(words) => words,
        None => (text, ""),
    }
}

pub fn number(text: &str) -> Option<u64> {
    text.parse().ok()
}

/// Writes the words one after the other, with nothing between them.
pub fn write_words<W: Write>(out: &mut W, words: &[&str]) -> io::Result<()> {
    for word in words {
        out.write_all(word.as_bytes())?;
    }
    Ok(())
}

/// Writes the words with nothing between them, and then the end of the line.
pub fn write_line<W: Write>(out: &mut W, words: &[&str]) -> io::Result<()> {
    write_words(out, words)?;
    out.write_all(b"\n")
}
