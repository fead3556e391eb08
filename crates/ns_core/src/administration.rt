//! Administrators' commands, as steps over the parts.

ghost use Rattle.std.specs.Prelude.{◌≡◌, false, option_copied, true};
ghost use Rattle.ns_types.specs.declared.step.AdminCommand.TheVariants as AdminCommand;
ghost use Rattle.ns_types.specs.declared.step.Step.TheVariants as Step;
ghost use Rattle.ns_types.specs.Asking.Admins.{is_relimited};
ghost use Rattle.ns_types.specs.Asking.Policies.{may_administer};
ghost use Rattle.ns_admin.specs.Laws.{relimits};
ghost use Rattle.ns_core.specs.Answering.{ChangesBy, MakesAdmin, MakesStep, ReadsBy, WritesPrepared, sees, sees_pool};
ghost use Rattle.ns_types.specs.Validity.{IsValid};
ghost use Rattle.ns_live_index.specs.Naming.{KeepsNodes};
ghost use Rattle.ns_core.specs.Held.{IsIndexed, IsKept, KeepsNamed};
ghost use Rattle.ns_core.specs.Viewed.{state_of, world_of};

use crate::parts::{Parts, plain};
use crate::rights::has_any;
use ns_admin::{
    RecordChange, change_limits, delete_namespace, delete_pool, delete_quota, is_relimited,
    list_quotas, put_namespace, put_pool, put_quota, read_quota, write,
};
use ns_live_index::Live;
use ns_tables::Tables;
use ns_types::records::Quota;
use ns_types::refusal::Refusal;
use ns_types::reply::{Content, Reply};
use ns_types::step::AdminCommand;
use ns_types::text::Text;

/// Writes the change that was prepared for a command on a record, or leaves the tables as they are. The index stays right about
/// which namespaces name which quota, and about what they use.
fn record(
    tables: &mut Tables,
    live: &mut Live,
    prepared: Result<RecordChange, Refusal>,
) -> Result<Content, Refusal>
    ensures written { WritesPrepared prepared tables.old result tables.new }
    ensures nodes { KeepsNodes live.old live.new }
    ensures named { KeepsNamed tables.old live.old tables.new live.new }
{
    let change = prepared?;
    write(tables, live, change)?;
    Ok(Content::Written)
}

impl Parts {
    fn may_administer(&self, secret: Option<&Text>, command: &AdminCommand) -> bool
        ensures { result ≡ may_administer self.now.acl (option_copied secret.entry) command.now }
    {
        match command {
            AdminCommand::ListNamespaces | AdminCommand::ListPools => self.acl.is_known(secret),
            _ => self.acl.is_manager(secret),
        }
    }

    fn list_namespaces(&self, secret: Option<&Text>) -> Result<Content, Refusal>
        ensures { ReadsBy (option_copied secret.entry) AdminCommand.ListNamespaces self.now result }
    {
        let acl = &self.acl;
        let sees = |name: &Text|
            ensures { result ≡ sees acl.entry.now (option_copied secret.entry) name.now }
        { has_any(acl.rights(secret, name)) };
        Ok(ns_admin::list_namespaces(&self.tables, sees)?)
    }

    fn list_pools(&self, secret: Option<&Text>) -> Result<Content, Refusal>
        ensures { ReadsBy (option_copied secret.entry) AdminCommand.ListPools self.now result }
    {
        let acl = &self.acl;
        let sees = |name: &Text|
            ensures { result ≡ sees_pool acl.entry.now (option_copied secret.entry) name.now }
        { acl.pool_rights(secret, name).read };
        Ok(ns_admin::list_pools(&self.tables, sees)?)
    }

    /// Makes the change of a command, for a secret that has the right.
    fn administer(
        &mut self,
        secret: Option<&Text>,
        command: &AdminCommand,
    ) -> Result<Content, Refusal>
        requires { IsIndexed self.old }
        ensures made { ChangesBy (option_copied secret.entry) command.now self.old result self.new }
        ensures nodes { KeepsNodes self.old.live self.new.live }
        ensures named { KeepsNamed self.old.tables self.old.live self.new.tables self.new.live }
        ensures turns { self.new.turns ≡ self.old.turns }
    {
        match command {
            AdminCommand::ListNamespaces => self.list_namespaces(secret),
            AdminCommand::PutNamespace(name, row) => {
                let prepared = put_namespace(&self.tables, name, row);
                record(&mut self.tables, &mut self.live, prepared)
            }
            AdminCommand::DeleteNamespace(name) => {
                let prepared = delete_namespace(&self.tables, name);
                record(&mut self.tables, &mut self.live, prepared)
            }
            AdminCommand::ListQuotas => Ok(list_quotas(&self.tables)?),
            AdminCommand::ReadQuota(name) => read_quota(&self.tables, name),
            AdminCommand::PutQuota(name, quota) => {
                let prepared = put_quota(&self.tables, name, quota);
                record(&mut self.tables, &mut self.live, prepared)
            }
            AdminCommand::DeleteQuota(name) => {
                let prepared = delete_quota(&self.tables, &self.live, name);
                record(&mut self.tables, &mut self.live, prepared)
            }
            AdminCommand::ListPools => self.list_pools(secret),
            AdminCommand::PutPool(name, pool) => {
                let prepared = put_pool(&self.tables, name, pool);
                record(&mut self.tables, &mut self.live, prepared)
            }
            AdminCommand::DeletePool(name) => {
                let prepared = delete_pool(&self.tables, name);
                record(&mut self.tables, &mut self.live, prepared)
            }
            AdminCommand::ReadPolicy(name) => self.acl.read_policy(name),
            AdminCommand::PutPolicy(name, policy) => self.acl.put_policy(name, policy),
            AdminCommand::DeletePolicy(name) => self.acl.delete_policy(name),
            AdminCommand::CreateToken(new) => self.acl.create_token(new),
            AdminCommand::DeleteToken(accessor) => self.acl.delete_token(accessor),
        }
    }

    /// Makes the step of a command that gives no quota other limits, for a secret that has the right.
    fn make_at_once(
        &mut self,
        secret: Option<&Text>,
        command: &AdminCommand,
    ) -> Result<Reply, Refusal>
        requires valid { IsValid (state_of self.old) }
        requires index { IsIndexed self.old }
        requires allowed { may_administer self.old.acl (option_copied secret) command.now ≡ true }
        requires same { relimits command.now (world_of self.old) ≡ false }
        ensures made { let step = Step.Admin (option_copied secret.entry) command.now in
            MakesStep step self.old result self.new }
        ensures index { IsIndexed self.new }
    {
        let content = self.administer(secret, command)?;
        Ok(plain(content))
    }

    /// Makes the step in which a quota gets other limits, for each secret that has the right.
    fn relimit(&mut self, name: &Text, quota: &Quota) -> Result<Reply, Refusal>
        requires valid { IsValid (state_of self.old) }
        requires index { IsIndexed self.old }
        requires other { is_relimited name.now quota.now (world_of self.old) ≡ true }
        ensures made { let command = AdminCommand.PutQuota name.now quota.now in
            MakesAdmin command self.old result self.new }
        ensures index { IsIndexed self.new }
    {
        let prepared = change_limits(&self.tables, name, quota);
        self.work(prepared)
    }

    /// Makes the step of an administrator's command, or refuses it and leaves the state as it is.
    pub fn admin(&mut self, secret: Option<&Text>, command: &AdminCommand) -> Result<Reply, Refusal>
        requires { IsKept self.old }
        ensures made { let step = Step.Admin (option_copied secret.entry) command.now in
            MakesStep step self.old result self.new }
        ensures index { IsIndexed self.new }
    {
        if !self.may_administer(secret, command) {
            return Err(Refusal::Denied);
        }
        match command {
            AdminCommand::PutQuota(name, quota) if is_relimited(&self.tables, name, quota) => {
                self.relimit(name, quota)
            }
            _ => self.make_at_once(secret, command),
        }
    }
}
