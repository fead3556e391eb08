//! What is printed of a connection.

/// What standard output gets.
#[derive(Clone, Copy, PartialEq, Eq)]
pub enum Printed {
    /// The replies, as HTTP.
    Replies,
    /// In their place the log of all that the server did.
    Log,
}
