//! Laws of limits: how long texts and lists may be, and how large numbers, in what a request writes.

ghost use Rattle.ns_laws.specs.Limits.{
  TaskLimits,
  GroupLimits,
  ConstraintLimits,
  RegistrationLimits,
  DocumentLimits,
  NodeLimits,
  NamespaceLimits,
  QuotaLimits,
  PoolLimits,
  PolicyLimits,
  TokenLimits,
  OthersHaveNoLimits,
};

/// A task is within the limits exactly if it has a name and asks for 1 to 2,147,483,647 of CPU and of memory.
pub fn task_limits()
    ensures { TaskLimits }
{}

/// A task group is within the limits exactly if it has a name, a count of 0 to 1,000, 1 to 2,147,483,647 of disk, and 1 to
/// 16 tasks within the limits, no two with the same name.
pub fn group_limits()
    ensures { GroupLimits }
{}

/// A constraint is within the limits exactly if the key of an attribute that it looks at has at most 248 bytes, and its
/// value at most 256.
pub fn constraint_limits()
    ensures { ConstraintLimits }
{}

/// A registration is within the limits exactly if it has an id and either no pool or a pool's name, a priority of 1 to 100,
/// at most 16 constraints, and 1 to 16 groups, no two with the same name, each constraint and each group within the limits.
pub fn registration_limits()
    ensures { RegistrationLimits }
{}

/// The same holds of the document of a job that is kept, whose pool is filled in.
pub fn document_limits()
    ensures { DocumentLimits }
{}

/// A put of a node is within the limits exactly if the node has a name, a class of at most 256 bytes, at most 64
/// attributes, in the order of their keys and none twice, with keys and values of at most 256 bytes, and 1 to 2,147,483,647
/// of CPU, of memory and of disk.
pub fn node_limits()
    ensures { NodeLimits }
{}

/// A put of a namespace is within the limits exactly if the namespace has a name and a description of at most 256 bytes,
/// its lists have at most 1,000 names of pools, none twice, it does not both allow and deny pools, and it does not deny
/// its default pool.
pub fn namespace_limits()
    ensures { NamespaceLimits }
{}

/// A put of a quota is within the limits exactly if the quota has a name, a description of at most 256 bytes, and limits,
/// if it has any, of 1 to 9,007,199,254,740,992 each, or that allow everything or nothing.
pub fn quota_limits()
    ensures { QuotaLimits }
{}

/// A put of a pool is within the limits exactly if the pool has a name and a description of at most 256 bytes.
pub fn pool_limits()
    ensures { PoolLimits }
{}

/// A put of a policy is within the limits exactly if the policy has a name, a description of at most 256 bytes, and rules
/// of at most 65,536 bytes.
pub fn policy_limits()
    ensures { PolicyLimits }
{}

/// A new token is within the limits exactly if it has a secret, a name of at most 256 bytes, and at most 64 names of
/// policies, none twice.
pub fn token_limits()
    ensures { TokenLimits }
{}

/// A step that registers no job, puts no record and no node, and creates no token is within the limits: a name that it looks up
/// may be any text.
pub fn others_have_no_limits()
    ensures { OthersHaveNoLimits }
{}
