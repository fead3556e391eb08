//! Laws that the text of a log is read back as that log, and so has no bad line.

pub mod laws;
mod text;
mod typed;

pub use text::readable_text;
pub use typed::each_is_typed;
