//! Reads what requests with a document want.

ghost use Rattle.std.specs.Prelude.{◌≡◌, IfOk, IsTrue, option_copied};
ghost use Rattle.ns_types.specs.declared.name.NameKind.TheVariants as NameKind;
ghost use Rattle.ns_types.specs.State.Name.{is_name};
ghost use Rattle.ns_documents.specs.Members.{is_path_name};
ghost use Rattle.ns_http.specs.Head.{asked};
ghost use Rattle.ns_endpoints.specs.Asking.{
  namespace_put,
  policy_put,
  pool_put,
  quota_put,
  registration_asked,
  token_asked,
};
ghost use Rattle.ns_endpoints.specs.Parts.{fourth_part};
ghost use Rattle.ns_endpoints.specs.Wanted.{IsServedWanted, Wants};

use crate::wanted::{GoodToken, Wanted, administers};
use ns_documents::{read_namespace, read_policy, read_pool, read_quota, read_token};
use ns_http::Request;
use ns_json::read_registration;
use ns_types::good::GoodAsk;
use ns_types::refusal::Refusal;
use ns_types::step::{AdminCommand, AskCommand};
use ns_types::text::Text;
use std::alloc::Global;

/// A registration of the job in the document.
#[tactic(auto, unfolding(crate::specs::Asking::registration_asked, crate::specs::Wanted::step_of))]
pub fn register(alloc: Global, request: &Request<'_>) -> Result<Wanted, Refusal>
    ensures wanted { Wants request.now result registration_asked }
    ensures served { IfOk result IsServedWanted }
{
    let document = read_registration(alloc, request.body)?;
    Ok(Wanted::Ask(
        document.namespace,
        GoodAsk::new(AskCommand::Register(document.registration)),
    ))
}

/// A put of a namespace. `named` is the name in the path, if there is one.
#[tactic(auto, unfolding(crate::specs::Asking::admin_by, crate::specs::Asking::admin_of, crate::specs::Parts::bearer_in, crate::specs::Wanted::step_of))]
pub fn put_namespace(
    alloc: Global,
    request: &Request<'_>,
    named: Option<&Text>,
) -> Result<Wanted, Refusal>
    requires { IsTrue (is_path_name NameKind.Namespace (option_copied named)) }
    ensures wanted { Wants request.now result (namespace_put (option_copied named.entry)) }
    ensures served { IfOk result IsServedWanted }
{
    let document = read_namespace(alloc, named, request.body)?;
    Ok(administers(AdminCommand::PutNamespace(document.name, document.namespace)))
}

/// A put of a quota. `named` is the name in the path, if there is one.
#[tactic(auto, unfolding(crate::specs::Asking::admin_by, crate::specs::Asking::admin_of, crate::specs::Parts::bearer_in, crate::specs::Wanted::step_of))]
pub fn put_quota(
    alloc: Global,
    request: &Request<'_>,
    named: Option<&Text>,
) -> Result<Wanted, Refusal>
    requires { IsTrue (is_path_name NameKind.Quota (option_copied named)) }
    ensures wanted { Wants request.now result (quota_put (option_copied named.entry)) }
    ensures served { IfOk result IsServedWanted }
{
    let document = read_quota(alloc, named, request.body)?;
    Ok(administers(AdminCommand::PutQuota(document.name, document.quota)))
}

/// A put of a pool. `named` is the name in the path, if there is one.
#[tactic(auto, unfolding(crate::specs::Asking::admin_by, crate::specs::Asking::admin_of, crate::specs::Parts::bearer_in, crate::specs::Wanted::step_of))]
pub fn put_pool(
    alloc: Global,
    request: &Request<'_>,
    named: Option<&Text>,
) -> Result<Wanted, Refusal>
    requires { IsTrue (is_path_name NameKind.Pool (option_copied named)) }
    ensures wanted { Wants request.now result (pool_put (option_copied named.entry)) }
    ensures served { IfOk result IsServedWanted }
{
    let document = read_pool(alloc, named, request.body)?;
    Ok(administers(AdminCommand::PutPool(document.name, document.pool)))
}

/// A put of the policy that the path names.
#[tactic(auto, unfolding(crate::specs::Asking::admin_by, crate::specs::Asking::admin_of, crate::specs::Parts::bearer_in, crate::specs::Wanted::step_of))]
pub fn put_policy(alloc: Global, request: &Request<'_>, name: &Text) -> Result<Wanted, Refusal>
    requires part { name.now ≡ fourth_part (asked request.now) }
    requires named { IsTrue (is_name NameKind.Policy name.now) }
    ensures wanted { Wants request.now result policy_put }
    ensures served { IfOk result IsServedWanted }
{
    let name = name.clone()?;
    let policy = read_policy(alloc, request.body)?;
    Ok(administers(AdminCommand::PutPolicy(name, policy)))
}

/// A new token, whose accessor and secret are drawn later.
#[tactic(auto, unfolding(crate::specs::Asking::admin_by, crate::specs::Asking::admin_of, crate::specs::Parts::bearer_in, crate::specs::Wanted::step_of))]
pub fn create_token(alloc: Global, request: &Request<'_>) -> Result<Wanted, Refusal>
    ensures wanted { Wants request.now result token_asked }
    ensures served { IfOk result IsServedWanted }
{
    let document = read_token(alloc, request.body)?;
    Ok(Wanted::Token(GoodToken::new(document)))
}
