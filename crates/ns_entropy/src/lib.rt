//! Draws random bits for new tokens and secrets, from generators that the system seeds one by one.
#![tactic(auto)]

mod random;
mod seeded;
#[cfg(test)]
mod tests;

pub use random::Random;
pub use seeded::generators;
