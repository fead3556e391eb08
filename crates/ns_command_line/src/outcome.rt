//! How a run of the command line ends.

use ns_listener::Service;
use ns_pipe::EndedRun;

/// How a run of the command line ends.
#[derive(Drop)]
pub enum RunEnd<R, W> {
    /// The run has ended.
    Ended(EndedRun<R, W>),
    /// A server with these settings has to be run. Nothing was read, or written to the output or to the errors: here are the
    /// reader and the writer.
    Serve(Service, R, W),
}
