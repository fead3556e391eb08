//! The table of the paths.

ghost use Rattle.std.specs.Prelude.{◌≡◌};
ghost use Rattle.ns_request.specs.Endpoints.{pattern_of, methods_of, parts_of};

use crate::method::Methods;
use crate::part::PathPart;
use ns_types::id::IdKind;
use ns_types::name::NameKind;

/// A path of the table.
#[derive(Clone, Copy, PartialEq, Eq)]
pub enum Endpoint {
    Jobs,
    Job,
    JobAllocations,
    JobEvaluations,
    Evaluations,
    Evaluation,
    Allocations,
    Allocation,
    AllocationStop,
    Namespaces,
    NewNamespace,
    Namespace,
    Quotas,
    NewQuota,
    Quota,
    QuotaUsage,
    EventStream,
    Pools,
    Pool,
    PoolNodes,
    Node,
    NodeStatus,
    NodeEligibility,
    NodeReport,
    Policy,
    NewToken,
    Token,
}

/// All endpoints.
pub const ENDPOINTS: [Endpoint; 27] = [
    Endpoint::Jobs,
    Endpoint::Job,
    Endpoint::JobAllocations,
    Endpoint::JobEvaluations,
    Endpoint::Evaluations,
    Endpoint::Evaluation,
    Endpoint::Allocations,
    Endpoint::Allocation,
    Endpoint::AllocationStop,
    Endpoint::Namespaces,
    Endpoint::NewNamespace,
    Endpoint::Namespace,
    Endpoint::Quotas,
    Endpoint::NewQuota,
    Endpoint::Quota,
    Endpoint::QuotaUsage,
    Endpoint::EventStream,
    Endpoint::Pools,
    Endpoint::Pool,
    Endpoint::PoolNodes,
    Endpoint::Node,
    Endpoint::NodeStatus,
    Endpoint::NodeEligibility,
    Endpoint::NodeReport,
    Endpoint::Policy,
    Endpoint::NewToken,
    Endpoint::Token,
];

/// A part at that place among the segments of a path.
#[derive(Clone, Copy)]
pub struct Placed {
    pub place: usize,
    pub part: PathPart,
}

const JOB: Placed = Placed {
    place: 3,
    part: PathPart::Name(NameKind::Job),
};

const EVALUATION: Placed = Placed {
    place: 3,
    part: PathPart::Id(IdKind::Evaluation),
};

const ALLOCATION: Placed = Placed {
    place: 3,
    part: PathPart::Id(IdKind::Allocation),
};

const NAMESPACE: Placed = Placed {
    place: 3,
    part: PathPart::Name(NameKind::Namespace),
};

const QUOTA: Placed = Placed {
    place: 3,
    part: PathPart::Name(NameKind::Quota),
};

const USED_QUOTA: Placed = Placed {
    place: 4,
    part: PathPart::Name(NameKind::Quota),
};

const POOL: Placed = Placed {
    place: 4,
    part: PathPart::Name(NameKind::Pool),
};

const NODE: Placed = Placed {
    place: 6,
    part: PathPart::Name(NameKind::Node),
};

const POLICY: Placed = Placed {
    place: 4,
    part: PathPart::Name(NameKind::Policy),
};

const ACCESSOR: Placed = Placed {
    place: 4,
    part: PathPart::Accessor,
};

const READ: Methods = Methods {
    get: true,
    write: false,
    delete: false,
};

const WRITE: Methods = Methods {
    get: false,
    write: true,
    delete: false,
};

const READ_OR_WRITE: Methods = Methods {
    get: true,
    write: true,
    delete: false,
};

const READ_OR_DELETE: Methods = Methods {
    get: true,
    write: false,
    delete: true,
};

const DELETE: Methods = Methods {
    get: false,
    write: false,
    delete: true,
};

const WRITE_OR_DELETE: Methods = Methods {
    get: false,
    write: true,
    delete: true,
};

const ANY: Methods = Methods {
    get: true,
    write: true,
    delete: true,
};

impl Endpoint {
    /// The path, where a word in braces stands for a part.
    pub fn pattern(self) -> &'static str
        ensures { result.now ≡ pattern_of self }
    {
        match self {
            Endpoint::Jobs => "/v1/jobs",
            Endpoint::Job => "/v1/job/{id}",
            Endpoint::JobAllocations => "/v1/job/{id}/allocations",
            Endpoint::JobEvaluations => "/v1/job/{id}/evaluations",
            Endpoint::Evaluations => "/v1/evaluations",
            Endpoint::Evaluation => "/v1/evaluation/{id}",
            Endpoint::Allocations => "/v1/allocations",
            Endpoint::Allocation => "/v1/allocation/{id}",
            Endpoint::AllocationStop => "/v1/allocation/{id}/stop",
            Endpoint::Namespaces => "/v1/namespaces",
            Endpoint::NewNamespace => "/v1/namespace",
            Endpoint::Namespace => "/v1/namespace/{name}",
            Endpoint::Quotas => "/v1/quotas",
            Endpoint::NewQuota => "/v1/quota",
            Endpoint::Quota => "/v1/quota/{name}",
            Endpoint::QuotaUsage => "/v1/quota/usage/{name}",
            Endpoint::EventStream => "/v1/event/stream",
            Endpoint::Pools => "/v1/node/pools",
            Endpoint::Pool => "/v1/node/pool/{name}",
            Endpoint::PoolNodes => "/v1/node/pool/{name}/nodes",
            Endpoint::Node => "/v1/node/pool/{name}/node/{node}",
            Endpoint::NodeStatus => "/v1/node/pool/{name}/node/{node}/status",
            Endpoint::NodeEligibility => "/v1/node/pool/{name}/node/{node}/eligibility",
            Endpoint::NodeReport => "/v1/node/pool/{name}/node/{node}/report",
            Endpoint::Policy => "/v1/acl/policy/{name}",
            Endpoint::NewToken => "/v1/acl/token",
            Endpoint::Token => "/v1/acl/token/{accessor}",
        }
    }

    /// The methods of the path.
    pub fn methods(self) -> Methods
        ensures { result ≡ methods_of self }
    {
        match self {
            Endpoint::Jobs | Endpoint::Pools => READ_OR_WRITE,
            Endpoint::JobAllocations
            | Endpoint::JobEvaluations
            | Endpoint::Evaluations
            | Endpoint::Evaluation
            | Endpoint::Allocations
            | Endpoint::Allocation
            | Endpoint::Namespaces
            | Endpoint::Quotas
            | Endpoint::QuotaUsage
            | Endpoint::EventStream
            | Endpoint::PoolNodes => READ,
            Endpoint::AllocationStop
            | Endpoint::NewNamespace
            | Endpoint::NewQuota
            | Endpoint::NodeStatus
            | Endpoint::NodeEligibility
            | Endpoint::NodeReport
            | Endpoint::NewToken => WRITE,
            Endpoint::Job => READ_OR_DELETE,
            Endpoint::Namespace | Endpoint::Quota | Endpoint::Pool | Endpoint::Policy => ANY,
            Endpoint::Node => WRITE_OR_DELETE,
            Endpoint::Token => DELETE,
        }
    }

    /// The parts of the path, by the place of their segments. The first segment is empty.
    pub fn parts(self) -> &'static [Placed]
        ensures { result.now ≡ parts_of self }
    {
        match self {
            Endpoint::Job | Endpoint::JobAllocations | Endpoint::JobEvaluations => &[JOB],
            Endpoint::Evaluation => &[EVALUATION],
            Endpoint::Allocation | Endpoint::AllocationStop => &[ALLOCATION],
            Endpoint::Namespace => &[NAMESPACE],
            Endpoint::Quota => &[QUOTA],
            Endpoint::QuotaUsage => &[USED_QUOTA],
            Endpoint::Pool | Endpoint::PoolNodes => &[POOL],
            Endpoint::Node
            | Endpoint::NodeStatus
            | Endpoint::NodeEligibility
            | Endpoint::NodeReport => &[POOL, NODE],
            Endpoint::Policy => &[POLICY],
            Endpoint::Token => &[ACCESSOR],
            Endpoint::Jobs
            | Endpoint::Evaluations
            | Endpoint::Allocations
            | Endpoint::Namespaces
            | Endpoint::NewNamespace
            | Endpoint::Quotas
            | Endpoint::NewQuota
            | Endpoint::EventStream
            | Endpoint::Pools
            | Endpoint::NewToken => &[],
        }
    }
}
