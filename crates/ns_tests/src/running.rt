//! Tests the running server in one process: what callers write and read, what their receipts say of the log, and what a server
//! over a port answers and prints.

mod ending;
mod filling;
mod full;
mod guest;
mod listener;
mod many;
mod meeting;
mod port;
mod reading;
mod rotating;
mod scheduling;
mod server;
mod serving;
mod spending;
mod stopping;
mod visits;
