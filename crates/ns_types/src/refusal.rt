//! Why a request is refused, and how a refusal is sent.

ghost use Rattle.std.specs.Prelude.{◌≡◌};
ghost use Rattle.ns_types.specs.Wire.Member.{member_name};
ghost use Rattle.ns_types.specs.Wire.Refused.{field_text, refusal_status, refusal_text};

use std::alloc::{AllocError, AllocFailed};

/// A member of a document or a parameter, as a refusal names it.
#[derive(Clone, Copy, Debug, PartialEq, Eq)]
pub enum Member {
    Allowed,
    Attributes,
    ClientStatus,
    Constraints,
    Count,
    Cpu,
    Default,
    Denied,
    Description,
    DiskMb,
    Eligibility,
    EnforceIndex,
    EphemeralDisk,
    Id,
    Index,
    Job,
    JobModifyIndex,
    LeftTarget,
    Limits,
    MemoryMb,
    Name,
    Namespace,
    /// The parameter `namespace`.
    NamespaceParameter,
    NodeClass,
    NodePool,
    NodePoolConfiguration,
    Operand,
    ParameterizedJob,
    Periodic,
    Policies,
    Priority,
    Purge,
    Quota,
    Region,
    RegionLimit,
    Resources,
    RightTarget,
    Rules,
    SizeMb,
    Status,
    TaskGroups,
    Tasks,
    Type,
}

impl Member {
    /// The name in the document or the query.
    pub fn name(self) -> &'static str
        ensures { result.now ≡ member_name self }
    {
        match self {
            Member::Allowed => "Allowed",
            Member::Attributes => "Attributes",
            Member::ClientStatus => "ClientStatus",
            Member::Constraints => "Constraints",
            Member::Count => "Count",
            Member::Cpu => "CPU",
            Member::Default => "Default",
            Member::Denied => "Denied",
            Member::Description => "Description",
            Member::DiskMb => "DiskMB",
            Member::Eligibility => "Eligibility",
            Member::EnforceIndex => "EnforceIndex",
            Member::EphemeralDisk => "EphemeralDisk",
            Member::Id => "ID",
            Member::Index => "index",
            Member::Job => "Job",
            Member::JobModifyIndex => "JobModifyIndex",
            Member::LeftTarget => "LTarget",
            Member::Limits => "Limits",
            Member::MemoryMb => "MemoryMB",
            Member::Name => "Name",
            Member::Namespace => "Namespace",
            Member::NamespaceParameter => "namespace",
            Member::NodeClass => "NodeClass",
            Member::NodePool => "NodePool",
            Member::NodePoolConfiguration => "NodePoolConfiguration",
            Member::Operand => "Operand",
            Member::ParameterizedJob => "ParameterizedJob",
            Member::Periodic => "Periodic",
            Member::Policies => "Policies",
            Member::Priority => "Priority",
            Member::Purge => "purge",
            Member::Quota => "Quota",
            Member::Region => "Region",
            Member::RegionLimit => "RegionLimit",
            Member::Resources => "Resources",
            Member::RightTarget => "RTarget",
            Member::Rules => "Rules",
            Member::SizeMb => "SizeMB",
            Member::Status => "Status",
            Member::TaskGroups => "TaskGroups",
            Member::Tasks => "Tasks",
            Member::Type => "Type",
        }
    }

    /// The text of a refusal that names the member.
    fn field_text(self) -> &'static str
        ensures { result.now ≡ field_text self }
    {
        match self {
            Member::Allowed => "bad field: Allowed",
            Member::Attributes => "bad field: Attributes",
            Member::ClientStatus => "bad field: ClientStatus",
            Member::Constraints => "bad field: Constraints",
            Member::Count => "bad field: Count",
            Member::Cpu => "bad field: CPU",
            Member::Default => "bad field: Default",
            Member::Denied => "bad field: Denied",
            Member::Description => "bad field: Description",
            Member::DiskMb => "bad field: DiskMB",
            Member::Eligibility => "bad field: Eligibility",
            Member::EnforceIndex => "bad field: EnforceIndex",
            Member::EphemeralDisk => "bad field: EphemeralDisk",
            Member::Id => "bad field: ID",
            Member::Index => "bad field: index",
            Member::Job => "bad field: Job",
            Member::JobModifyIndex => "bad field: JobModifyIndex",
            Member::LeftTarget => "bad field: LTarget",
            Member::Limits => "bad field: Limits",
            Member::MemoryMb => "bad field: MemoryMB",
            Member::Name => "bad field: Name",
            Member::Namespace => "bad field: Namespace",
            Member::NamespaceParameter => "bad field: namespace",
            Member::NodeClass => "bad field: NodeClass",
            Member::NodePool => "bad field: NodePool",
            Member::NodePoolConfiguration => "bad field: NodePoolConfiguration",
            Member::Operand => "bad field: Operand",
            Member::ParameterizedJob => "bad field: ParameterizedJob",
            Member::Periodic => "bad field: Periodic",
            Member::Policies => "bad field: Policies",
            Member::Priority => "bad field: Priority",
            Member::Purge => "bad field: purge",
            Member::Quota => "bad field: Quota",
            Member::Region => "bad field: Region",
            Member::RegionLimit => "bad field: RegionLimit",
            Member::Resources => "bad field: Resources",
            Member::RightTarget => "bad field: RTarget",
            Member::Rules => "bad field: Rules",
            Member::SizeMb => "bad field: SizeMB",
            Member::Status => "bad field: Status",
            Member::TaskGroups => "bad field: TaskGroups",
            Member::Tasks => "bad field: Tasks",
            Member::Type => "bad field: Type",
        }
    }
}

#[derive(Clone, Copy, Debug, PartialEq, Eq)]
pub enum Refusal {
    BadHead,
    BadJson,
    Denied,
    NotFound,
    BadMethod,
    Conflict,
    BadField(Member),
    PoolNotPermitted,
    InUse,
    Full,
    NeedLength,
    TooLarge,
    NotServed,
    Memory,
    LogFull,
    /// A worker's call that is not enabled.
    NotEnabled,
    /// A plan of a snapshot that is not the kept one.
    Foreign,
}

impl Refusal {
    /// The status of the response, or 0 for the two that are never sent.
    pub fn status(self) -> u16
        ensures { result ≡ refusal_status self }
    {
        match self {
            Refusal::BadHead
            | Refusal::BadJson
            | Refusal::BadField(_)
            | Refusal::PoolNotPermitted
            | Refusal::InUse
            | Refusal::Full => 400,
            Refusal::Denied => 403,
            Refusal::NotFound => 404,
            Refusal::BadMethod => 405,
            Refusal::Conflict => 409,
            Refusal::NeedLength => 411,
            Refusal::TooLarge => 413,
            Refusal::NotServed => 501,
            Refusal::Memory | Refusal::LogFull => 503,
            Refusal::NotEnabled | Refusal::Foreign => 0,
        }
    }

    /// The body of the response. It takes no memory.
    pub fn text(self) -> &'static str
        ensures { result.now ≡ refusal_text self }
    {
        match self {
            Refusal::BadHead => "bad request",
            Refusal::BadJson => "bad json",
            Refusal::Denied => "Permission denied",
            Refusal::NotFound => "not found",
            Refusal::BadMethod => "method not allowed",
            Refusal::Conflict => "conflict",
            Refusal::BadField(member) => member.field_text(),
            Refusal::PoolNotPermitted => "node pool not permitted",
            Refusal::InUse => "in use",
            Refusal::Full => "full",
            Refusal::NeedLength => "length required",
            Refusal::TooLarge => "too large",
            Refusal::NotServed => "not served",
            Refusal::Memory => "out of memory",
            Refusal::LogFull => "log full",
            Refusal::NotEnabled | Refusal::Foreign => "",
        }
    }
}

impl From<AllocError> for Refusal {
    ghost use Rattle.std.specs.Prelude.{◌≡◌};
    ghost use Rattle.ns_types.specs.declared.refusal.Refusal.TheVariants.{Memory};

    ghost from_gives = { λ _ e. e ≡ Memory };

    fn from(_refused: AllocError) -> Refusal {
        Refusal::Memory
    }
}

impl<T: Drop> From<AllocFailed<T>> for Refusal {
    ghost use Rattle.std.specs.Prelude.{◌≡◌};
    ghost use Rattle.ns_types.specs.declared.refusal.Refusal.TheVariants.{Memory};

    ghost from_gives = { λ _ e. e ≡ Memory };

    fn from(_refused: AllocFailed<T>) -> Refusal {
        Refusal::Memory
    }
}
