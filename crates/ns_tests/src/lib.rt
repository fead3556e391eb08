//! Tests the crates through their public calls: what stored lines cannot show.
#![tactic(auto)]

#[cfg(test)]
mod running;
#[cfg(test)]
mod state;
#[cfg(test)]
mod wire;
