//! Reads the head of a request: its endpoint, the parts of its path and its method, or the refusal that comes first; then the
//! parameters of its query, and its secret.
#![tactic(auto)]

mod endpoint;
mod finding;
mod method;
mod parameters;
mod part;
mod query;
mod routes;
mod target;
mod token;

pub use endpoint::Endpoint;
pub use finding::RequestTarget;
pub use method::Method;
pub use query::{Query, number_of};
pub use routes::Routes;
pub use token::secret;
