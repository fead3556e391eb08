//! What the words ask the program to do.

use crate::printed::Printed;
use crate::replay::Replay;
use ns_api::Driven;
use ns_types::name::Secret;

/// What the words of the command line ask for.
#[derive(Drop)]
pub enum WordsRead {
    /// To serve one connection, with that secret as the bootstrap token, to drive the named worker after each request, and to
    /// print the replies or the log.
    Pipe(Secret, Driven, Printed),
    /// To replay a namespace's own part of a log alone.
    Alone(Replay),
    /// To show this help.
    Help(String),
    /// Nothing, because the words are a mistake, for this reason.
    Mistake(String),
    /// There was no memory to read the words.
    NoMemory,
}
