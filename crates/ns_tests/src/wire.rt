//! Tests, through their public calls, the crates that read requests, write replies, read the arguments and run the program by
//! them. The tests show what stored lines cannot: readers and writers that fail, and texts on standard error. Expected bytes
//! are written from the formats, not from the program.

mod asked;
mod faults;
mod http;
mod json;
mod longest;
mod policy;
mod repeated;
mod replies;
mod same_bits;
mod secrets;
mod serving;
mod streams;
mod texts;
