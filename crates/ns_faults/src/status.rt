//! Exit statuses.

/// The program served to the end, or showed its help.
pub const SERVED: u8 = 0;
/// The log of a server differs from the replies to its threads.
pub const MISMATCH: u8 = 1;
/// The words of the command line are bad.
pub const BAD_WORDS: u8 = 2;
/// The input failed or ended inside a request, or the system gave no random bits.
pub const READ_FAULT: u8 = 3;
/// The output failed.
pub const WRITE_FAULT: u8 = 4;
/// No memory was left.
pub const OUT_OF_MEMORY: u8 = 5;
