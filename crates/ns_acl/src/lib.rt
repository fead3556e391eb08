//! Keeps policies and tokens, and finds what the bearer of a secret may do.
#![tactic(auto)]

mod acl;
mod bearer;
mod copying;
mod gathering;
mod shown;
mod tables;
mod tokens;

pub use acl::Acl;
