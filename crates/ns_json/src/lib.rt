//! Reads registrations, and writes their replies and jobs, as JSON.
#![tactic(auto)]

mod constraint;
mod group;
pub mod job_reply;
mod job_text;
pub mod member;
pub mod part;
mod registration;
mod reply;
mod text_buffer;

pub use registration::{RegistrationDocument, read_registration};
pub use reply::{ReplyRoom, render};
