//! What is released: pools with their classes, and quotas.

use ns_types::node::Class;
use ns_types::rows::Rows;
use ns_types::text::Text;

/// A released pool, and the classes of its nodes that have room.
#[derive(Drop)]
pub struct ReleasedPool {
    pub pool: Text,
    pub classes: Rows<Class>,
}

/// What a step releases, in any order. A pool, class or quota that is named twice counts once.
pub struct Releases {
    pub pools: Rows<ReleasedPool>,
    pub quotas: Rows<Text>,
}

impl Drop for Releases {
    fn drop(self) {
        let Releases {
            pools: _pools,
            quotas: _quotas,
        } = self;
    }
}
