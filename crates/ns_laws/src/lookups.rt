//! Laws of look-ups: what is found under a name or a number, and what a list has.

ghost use Rattle.ns_laws.specs.Lookups.{
  AllocationsAreFound,
  EvaluationsAreFound,
  KeysAreListed,
  NamesAreListed,
  NodesAreFound,
  NumbersAreListed,
  PrioritiesAreFound,
  WorkersAreFound,
};

/// The evaluation of a number in a namespace is the one that the namespace has under that number.
pub fn evaluations_are_found()
    ensures { EvaluationsAreFound }
{}

/// The allocation of a number in a namespace is the one that the namespace has under that number.
pub fn allocations_are_found()
    ensures { AllocationsAreFound }
{}

/// A worker's row in a namespace is the one that the namespace has under the worker's number.
pub fn workers_are_found()
    ensures { WorkersAreFound }
{}

/// The node of a name in a pool is the one that the pool has under that name.
pub fn nodes_are_found()
    ensures { NodesAreFound }
{}

/// An entry of a queue has the priority of its evaluation.
pub fn priorities_are_found()
    ensures { PrioritiesAreFound }
{}

/// A list has a name exactly if one of its elements is that name.
pub fn names_are_listed()
    ensures { NamesAreListed }
{}

/// A list has a number exactly if one of its elements is that number.
pub fn numbers_are_listed()
    ensures { NumbersAreListed }
{}

/// A list has a key exactly if one of its elements is that namespace and that number.
pub fn keys_are_listed()
    ensures { KeysAreListed }
{}
