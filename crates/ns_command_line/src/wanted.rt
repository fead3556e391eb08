//! What the words ask for.

use ns_listener::Service;
use ns_pipe::WordsRead;

/// What the words ask for.
#[derive(Drop)]
pub enum Invocation {
    /// A server over TCP.
    Serve(Service),
    /// All else. It reads its input, if it has any, to the end.
    Run(WordsRead),
}
