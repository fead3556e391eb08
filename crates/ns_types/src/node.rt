//! Nodes of a pool.

ghost use Rattle.std.specs.Prelude.{◌≡◌};

use crate::resources::Resources;
use crate::rows::Rows;
use crate::text::Text;
use std::alloc::AllocError;

pub struct Attribute {
    pub key: Text,
    pub value: Text,
}

impl Drop for Attribute {
    fn drop(self) {
        let Attribute {
            key: _key,
            value: _value,
        } = self;
    }
}

impl Clone for Attribute {
    ghost is_clone = { λ a b. b ≡ a };

    fn clone(&self) -> Result<Attribute, AllocError> {
        Ok(Attribute {
            key: self.key.clone()?,
            value: self.value.clone()?,
        })
    }
}

/// What constraints that do not escape classes look at on a node: its class name and its attributes that are not unique.
pub struct Class {
    pub name: Text,
    /// In the order of their keys, each key once.
    pub attributes: Rows<Attribute>,
}

impl Drop for Class {
    fn drop(self) {
        let Class {
            name: _name,
            attributes: _attributes,
        } = self;
    }
}

impl Clone for Class {
    ghost is_clone = { λ a b. b ≡ a };

    fn clone(&self) -> Result<Class, AllocError> {
        Ok(Class {
            name: self.name.clone()?,
            attributes: self.attributes.clone()?,
        })
    }
}

#[derive(Clone, Copy, PartialEq, Eq)]
pub enum NodeStatus {
    Ready,
    Down,
}

/// What a registration says of a node.
pub struct Offer {
    pub class: Text,
    /// In the order of their keys, each key once.
    pub attributes: Rows<Attribute>,
    pub capacity: Resources,
}

impl Drop for Offer {
    fn drop(self) {
        let Offer {
            class: _class,
            attributes: _attributes,
            capacity: _,
        } = self;
    }
}

/// A row of a pool, by the node's name.
pub struct Node {
    pub offer: Offer,
    pub status: NodeStatus,
    pub eligible: bool,
    /// How many allocations were placed on it.
    pub places: u64,
}

impl Drop for Node {
    fn drop(self) {
        let Node {
            offer: _offer,
            status: _,
            eligible: _,
            places: _,
        } = self;
    }
}
