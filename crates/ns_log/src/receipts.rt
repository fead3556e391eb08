//! Settles what callers were answered against a log: each entry was answered to one of them, and nothing else was.

mod agreement;
mod fault;
pub mod laws;
mod past;
mod receipt;

pub use agreement::settle;
pub use fault::SettleFault;
pub use past::Past;
pub use receipt::Receipt;
