//! Laws of secrets: for whom a secret stands, which right each request needs, and what becomes of tokens and policies.

ghost use Rattle.ns_laws.specs.Secrets.{
  OnlyManagersAdminister,
  AllMayList,
  OnlyManagersChangeAccess,
  AccessListsStay,
  ListShowsReadable,
  ListShowsReadablePools,
  RulesAreOfPolicies,
  RightsAreGranted,
  PoolRightsAreGranted,
  JobWritesNeedSubmit,
  StopNeedsLifecycle,
  ListNeedsListJobs,
  ReadsNeedReadJob,
  NamespaceNeedsSome,
  PoolReadsNeedRead,
  PoolWritesNeedWrite,
  NoChangeWithoutSubmit,
  NoChangeWithoutWrite,
  TokenIsAsAsked,
  ManagerCreatesToken,
  DeletedTokenIsUnknown,
  ManagerDeletesToken,
  FirstTokenStays,
  PolicyIsAsPut,
  DeletedPolicyIsGone,
  ManagerPutsPolicy,
  ManagerDeletesPolicy,
};

/// A request without a secret, or with the secret of a `client` token, is denied whatever administrators ask, but the lists of
/// namespaces and of pools.
pub fn only_managers_administer()
    ensures { OnlyManagersAdminister }
{}

/// The lists of namespaces and of pools are allowed without a secret, and with the secret of a `client` token.
pub fn all_may_list()
    ensures { AllMayList }
{}

/// Whatever step is made, the access lists stay as they are, or it is an administrator's request with the secret of a
/// `management` token.
pub fn only_managers_change_access()
    ensures { OnlyManagersChangeAccess }
{}

/// No step changes the access lists, but one that puts or deletes a policy, or creates or deletes a token.
pub fn access_lists_stay()
    ensures { AccessListsStay }
{}

/// The list of namespaces shows exactly those namespaces whose record the same secret may read, each with its record.
pub fn list_shows_readable()
    ensures { ListShowsReadable }
{}

/// The list of pools shows exactly those pools whose record the same secret may read, each with its record.
pub fn list_shows_readable_pools()
    ensures { ListShowsReadablePools }
{}

/// The rules of a list of policies are exactly those that stand in the policies of these names that are there: for a namespace
/// their rules for namespaces, for a pool their rules for pools.
pub fn rules_are_of_policies()
    ensures { RulesAreOfPolicies }
{}

/// A request without a secret has in a namespace the rights that the policy `anonymous` grants there, and no others. One with
/// the secret of a `client` token has those that the token's policies grant there, and no others.
pub fn rights_are_granted()
    ensures { RightsAreGranted }
{}

/// A request without a secret has in a pool the rights that the policy `anonymous` grants there, and no others. One with the
/// secret of a `client` token has those that the token's policies grant there, and no others.
pub fn pool_rights_are_granted()
    ensures { PoolRightsAreGranted }
{}

/// To register or to deregister a job a request needs the right to submit jobs in its namespace, and no other right.
pub fn job_writes_need_submit()
    ensures { JobWritesNeedSubmit }
{}

/// To stop an allocation a request needs the right to its namespace's life cycle of allocations, and no other right.
pub fn stop_needs_lifecycle()
    ensures { StopNeedsLifecycle }
{}

/// To list the jobs of a namespace a request needs the right to list jobs there, and no other right.
pub fn list_needs_list_jobs()
    ensures { ListNeedsListJobs }
{}

/// To read a job, evaluations, allocations, events or the usage of a quota in a namespace a request needs the right to read
/// jobs there, and no other right.
pub fn reads_need_read_job()
    ensures { ReadsNeedReadJob }
{}

/// A request for the record of a namespace is denied exactly where it has none of the four rights there.
pub fn namespace_needs_some()
    ensures { NamespaceNeedsSome }
{}

/// To read a pool's record or list its nodes a request needs the right to read the pool, and no other right.
pub fn pool_reads_need_read()
    ensures { PoolReadsNeedRead }
{}

/// To put or delete a node, to set its status or whether it is eligible, or to report an allocation on it a request needs the
/// right to write the pool, and no other right.
pub fn pool_writes_need_write()
    ensures { PoolWritesNeedWrite }
{}

/// Without the right to submit jobs in a namespace nothing that is asked there changes the state, but the stop of an
/// allocation.
pub fn no_change_without_submit()
    ensures { NoChangeWithoutSubmit }
{}

/// Without the right to write a pool nothing that is asked of it changes the state.
pub fn no_change_without_write()
    ensures { NoChangeWithoutWrite }
{}

/// Where a token is created, its secret and its accessor were no token's before. Afterwards the token of that secret is
/// exactly what was asked for, and the answer shows exactly that. Every other secret keeps its token or still has none, and
/// the policies stay.
pub fn token_is_as_asked()
    ensures { TokenIsAsAsked }
{}

/// In a valid state a request with the secret of a `management` token creates a token where no token has the new secret or the
/// new accessor, and there are fewer tokens than may be.
pub fn manager_creates_token()
    ensures { ManagerCreatesToken }
{}

/// Where in a valid state a token is deleted, there was one with that accessor, and afterwards there is none. The tokens with
/// other accessors stay under their secrets as they were, no other comes, and the policies stay.
pub fn deleted_token_is_unknown()
    ensures { DeletedTokenIsUnknown }
{}

/// In a valid state a request with the secret of a `management` token deletes any token that is there, but the one that the
/// server starts with.
pub fn manager_deletes_token()
    ensures { ManagerDeletesToken }
{}

/// A request to delete the token that the server starts with, whose accessor is all zeros, changes nothing, whoever makes it.
pub fn first_token_stays()
    ensures { FirstTokenStays }
{}

/// Where a policy is put, the policy of that name is afterwards the one that was put. Every other name keeps its policy or
/// still has none, and the tokens stay.
pub fn policy_is_as_put()
    ensures { PolicyIsAsPut }
{}

/// Where a policy is deleted, there is none of that name afterwards. Every other name keeps its policy or still has none, and
/// the tokens stay.
pub fn deleted_policy_is_gone()
    ensures { DeletedPolicyIsGone }
{}

/// In a valid state a request with the secret of a `management` token puts a policy where there is one of that name, or there
/// are fewer policies than may be.
pub fn manager_puts_policy()
    ensures { ManagerPutsPolicy }
{}

/// In a valid state a request with the secret of a `management` token deletes a policy that is there.
pub fn manager_deletes_policy()
    ensures { ManagerDeletesPolicy }
{}
