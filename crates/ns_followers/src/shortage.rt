//! Finds what a follower remembers of the snapshot that it was planned from: the classes of nodes that a constraint rules out
//! by their class, and whether some constraint looks at more than classes.

mod classes;
mod constraints;
mod order;

pub use classes::infeasible_classes;
pub use constraints::{escapes, is_class_infeasible};
