//! Laws of nodes that go down.

ghost use Rattle.ns_laws.specs.Nodes.{LosersAreFirst, EachJobLoses};

/// When a node goes down, evaluations are made for some of the allocations that are live there. Each of these is the first of
/// its job on the node: the one with the least number.
pub fn losers_are_first()
    ensures { LosersAreFirst }
{}

/// When a node goes down, each job with a live allocation there has one of the allocations for which an evaluation is made.
pub fn each_job_loses()
    ensures { EachJobLoses }
{}
