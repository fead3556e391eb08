//! Reads the commands of administrators.

ghost use Rattle.std.specs.Prelude.{◌≤◌, IfOk, IsTrue};
ghost use Rattle.serde_json.specs.Data.{depth};
ghost use Rattle.serde_json.specs.Read.{max_depth};
ghost use Rattle.serde_json.specs.View.{view};
ghost use Rattle.ns_types.specs.Asking.Good.{is_good_admin};
ghost use Rattle.ns_log_reader.specs.Lines.{HasReadRules};
ghost use Rattle.ns_log_reader.specs.Reading.{Gives, same, put_namespace_in, put_quota_in, put_pool_in, put_policy_in, new_token_in, put_in, with_name, listing, administered_in};

use crate::document;
use crate::fault::LineFault;
use crate::member::{has, member, name, text};
use ns_types::name::NameKind;
use ns_types::step::{AdminCommand, NewToken};
use ns_types::text::Text;
use serde_json::Value;
use std::alloc::Global;

#[tactic(auto, unfolding(crate::specs::Reading::put_policy_in))]
fn put_policy(alloc: Global, value: &Value) -> Result<AdminCommand, LineFault>
    requires { depth (view value.now) ≤ max_depth }
    ensures value { Gives same result (put_policy_in (view value.now)) }
    ensures good { IfOk result (λ c. IsTrue (is_good_admin c)) }
    ensures rules { IfOk result HasReadRules }
{
    let name = name(alloc, value, "Name", NameKind::Policy)?;
    let policy = document::policy(alloc, value)?;
    Ok(AdminCommand::PutPolicy(name, policy))
}

#[tactic(auto, unfolding(crate::specs::Reading::new_token_in))]
fn new_token(alloc: Global, value: &Value) -> Result<AdminCommand, LineFault>
    requires { depth (view value.now) ≤ max_depth }
    ensures value { Gives same result (new_token_in (view value.now)) }
    ensures good { IfOk result (λ c. IsTrue (is_good_admin c)) }
    ensures rules { IfOk result HasReadRules }
{
    let accessor = text(alloc, value, "AccessorID")?;
    let secret = name(alloc, value, "SecretID", NameKind::Secret)?;
    let token = document::token(alloc, value)?;
    Ok(AdminCommand::CreateToken(NewToken {
        accessor,
        secret,
        name: token.name,
        kind: token.kind,
        policies: token.policies,
    }))
}

#[tactic(auto, unfolding(crate::specs::Reading::put_namespace_in))]
fn put_namespace(alloc: Global, value: &Value) -> Result<AdminCommand, LineFault>
    requires { depth (view value.now) ≤ max_depth }
    ensures value { Gives same result (put_namespace_in (view value.now)) }
    ensures good { IfOk result (λ c. IsTrue (is_good_admin c)) }
    ensures rules { IfOk result HasReadRules }
{
    let put = document::namespace(alloc, value)?;
    Ok(AdminCommand::PutNamespace(put.name, put.namespace))
}

#[tactic(auto, unfolding(crate::specs::Reading::put_quota_in))]
fn put_quota(alloc: Global, value: &Value) -> Result<AdminCommand, LineFault>
    requires { depth (view value.now) ≤ max_depth }
    ensures value { Gives same result (put_quota_in (view value.now)) }
    ensures good { IfOk result (λ c. IsTrue (is_good_admin c)) }
    ensures rules { IfOk result HasReadRules }
{
    let put = document::quota(alloc, value)?;
    Ok(AdminCommand::PutQuota(put.name, put.quota))
}

#[tactic(auto, unfolding(crate::specs::Reading::put_pool_in))]
fn put_pool(alloc: Global, value: &Value) -> Result<AdminCommand, LineFault>
    requires { depth (view value.now) ≤ max_depth }
    ensures value { Gives same result (put_pool_in (view value.now)) }
    ensures good { IfOk result (λ c. IsTrue (is_good_admin c)) }
    ensures rules { IfOk result HasReadRules }
{
    let put = document::pool(alloc, value)?;
    Ok(AdminCommand::PutPool(put.name, put.pool))
}

/// Reads a command that puts a document.
#[tactic(auto, unfolding(crate::specs::Reading::put_in))]
fn put(alloc: Global, word: &str, value: &Value) -> Result<AdminCommand, LineFault>
    requires { depth (view value.now) ≤ max_depth }
    ensures value { Gives same result (put_in word.now (view value.now)) }
    ensures good { IfOk result (λ c. IsTrue (is_good_admin c)) }
    ensures rules { IfOk result HasReadRules }
{
    match word {
        "PutNamespace" => put_namespace(alloc, value),
        "PutQuota" => put_quota(alloc, value),
        "PutPool" => put_pool(alloc, value),
        "PutPolicy" => put_policy(alloc, value),
        "CreateToken" => new_token(alloc, value),
        _ => Err(LineFault::Bad),
    }
}

/// Reads a command about the row of that name.
#[tactic(auto, unfolding(crate::specs::Reading::with_name))]
fn with_name(word: &str, name: Text) -> Result<AdminCommand, LineFault>
    ensures value { Gives same result (with_name word.now name) }
    ensures good { IfOk result (λ c. IsTrue (is_good_admin c)) }
    ensures rules { IfOk result HasReadRules }
{
    match word {
        "DeleteNamespace" => Ok(AdminCommand::DeleteNamespace(name)),
        "ReadQuota" => Ok(AdminCommand::ReadQuota(name)),
        "DeleteQuota" => Ok(AdminCommand::DeleteQuota(name)),
        "DeletePool" => Ok(AdminCommand::DeletePool(name)),
        "ReadPolicy" => Ok(AdminCommand::ReadPolicy(name)),
        "DeletePolicy" => Ok(AdminCommand::DeletePolicy(name)),
        _ => Err(LineFault::Bad),
    }
}

#[tactic(auto, unfolding(crate::specs::Reading::listing))]
fn listing(word: &str) -> Result<AdminCommand, LineFault>
    ensures value { Gives same result (listing word.now) }
    ensures good { IfOk result (λ c. IsTrue (is_good_admin c)) }
    ensures rules { IfOk result HasReadRules }
{
    match word {
        "ListNamespaces" => Ok(AdminCommand::ListNamespaces),
        "ListQuotas" => Ok(AdminCommand::ListQuotas),
        "ListPools" => Ok(AdminCommand::ListPools),
        _ => Err(LineFault::Bad),
    }
}

/// Reads the command with this word. The arguments decide which commands the word can name.
#[tactic(auto, unfolding(crate::specs::Reading::administered_in))]
pub fn administered(alloc: Global, word: &str, arguments: &Value) -> Result<AdminCommand, LineFault>
    requires { depth (view arguments.now) ≤ max_depth }
    ensures value { Gives same result (administered_in word.now (view arguments.now)) }
    ensures good { IfOk result (λ c. IsTrue (is_good_admin c)) }
    ensures rules { IfOk result HasReadRules }
{
    if has(arguments, "Doc") {
        put(alloc, word, member(arguments, "Doc")?)
    } else if has(arguments, "Name") {
        with_name(word, text(alloc, arguments, "Name")?)
    } else if has(arguments, "AccessorID") {
        Ok(AdminCommand::DeleteToken(text(alloc, arguments, "AccessorID")?))
    } else {
        listing(word)
    }
}
