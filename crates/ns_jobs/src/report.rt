//! Prepares the report of a node's client about an allocation: its reply and its own change. Nothing is written. A report is
//! refused before any memory is taken if a counter would pass its bound.

mod bounds;
mod reporting;
mod statuses;
mod writing;

pub use reporting::report;
