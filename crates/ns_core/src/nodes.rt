//! Commands on a pool and its nodes, as steps over the parts.

ghost use Rattle.std.specs.Prelude.{◌≡◌, IfOk, false, option_copied, true};
ghost use Rattle.ns_types.specs.declared.reply.Content.TheVariants as Content;
ghost use Rattle.ns_types.specs.declared.step.NodeCommand.TheVariants as NodeCommand;
ghost use Rattle.ns_types.specs.declared.step.Step.TheVariants as Step;
ghost use Rattle.ns_types.specs.Access.Rights.{pool_rights_of};
ghost use Rattle.ns_types.specs.Asking.Nodes.{pool_right_of};
ghost use Rattle.ns_types.specs.State.Sums.{node_load};
ghost use Rattle.ns_steps.specs.Served.{only_reads, served_node};
ghost use Rattle.ns_core.specs.Answering.{MakesNode, MakesStep, PreparesNode, ReadsPool};
ghost use Rattle.ns_types.specs.Validity.{IsValid};
ghost use Rattle.ns_core.specs.Held.{IsIndexed};
ghost use Rattle.ns_core.specs.Viewed.{state_of, world_of};

use crate::parts::{Parts, plain};
use ns_change::Prepared;
use ns_nodes::{list_nodes, register_node, remove_node, set_down, set_eligible, set_ready};
use ns_types::node::NodeStatus;
use ns_types::records::Pool;
use ns_types::refusal::Refusal;
use ns_types::reply::{Content, PoolShown, Reply};
use ns_types::resources::Resources;
use ns_types::step::NodeCommand;
use ns_types::text::Text;
use std::alloc::AllocError;

fn pool_shown(name: &Text, pool: &Pool) -> Result<Content, AllocError>
    ensures { IfOk result (λ c. c ≡ Content.Pool (record { name = name.now; row = pool.now })) }
{
    Ok(Content::Pool(PoolShown {
        name: name.clone()?,
        row: pool.clone()?,
    }))
}

impl Parts {
    /// Whether the secret gives the right to the command.
    fn may_command(&self, pool: &Text, secret: Option<&Text>, command: &NodeCommand) -> bool
        ensures { let rights = pool_rights_of self.now.acl (option_copied secret.entry) pool.now in
            result ≡ pool_right_of command.now rights }
    {
        let rights = self.acl.pool_rights(secret, pool);
        match command {
            NodeCommand::ReadPool | NodeCommand::ListNodes => rights.read,
            _ => rights.write,
        }
    }

    fn read_pool(&self, name: &Text) -> Result<Content, Refusal>
        ensures { ReadsPool name.now NodeCommand.ReadPool self.now result }
    {
        let Some(pool) = self.tables.pools.get(name) else {
            return Err(Refusal::NotFound);
        };
        let content = pool_shown(name, &pool.pool)?;
        Ok(content)
    }

    /// The content of the reply to a command that only reads.
    fn read_in_pool(&self, pool: &Text, command: &NodeCommand) -> Result<Content, Refusal>
        requires valid { IsValid (state_of self.now) }
        requires index { IsIndexed self.now }
        requires reads { only_reads (served_node command.now) ≡ true }
        ensures { ReadsPool pool.now command.now self.now result }
    {
        match command {
            NodeCommand::ReadPool => self.read_pool(pool),
            NodeCommand::ListNodes => list_nodes(&self.tables, &self.live, pool),
            _ => unreachable!(),
        }
    }

    /// Answers a command that only reads, for each secret that has the right.
    fn read_node_command(&self, pool: &Text, command: &NodeCommand) -> Result<Reply, Refusal>
        requires valid { IsValid (state_of self.now) }
        requires index { IsIndexed self.now }
        requires reads { only_reads (served_node command.now) ≡ true }
        ensures { MakesNode pool.now command.now self.now result self.now }
    {
        let content = self.read_in_pool(pool, command)?;
        Ok(plain(content))
    }

    /// What the live allocations on the node take together.
    fn load(&self, pool: &Text, node: &Text) -> Resources
        requires valid { IsValid (state_of self.now) }
        requires index { IsIndexed self.now }
        ensures { result ≡ node_load (world_of self.now) pool.now node.now }
    {
        self.live.load(pool, node)
    }

    /// Prepares the step in which a node comes up or goes down, for each secret that has the right.
    fn set_status(&self, pool: &Text, name: &Text, status: NodeStatus) -> Result<Prepared, Refusal>
        requires valid { IsValid (state_of self.now) }
        requires index { IsIndexed self.now }
        ensures { PreparesNode pool.now (NodeCommand.SetStatus name.now status) self.now result }
    {
        match status {
            NodeStatus::Ready => set_ready(&self.tables, pool, name),
            NodeStatus::Down => set_down(&self.tables, &self.live, pool, name),
        }
    }

    /// Prepares the reply and the change of a command that writes, for each secret that has the right.
    fn prepare_node_command(&self, pool: &Text, command: &NodeCommand) -> Result<Prepared, Refusal>
        requires valid { IsValid (state_of self.now) }
        requires index { IsIndexed self.now }
        requires writes { only_reads (served_node command.now) ≡ false }
        ensures { PreparesNode pool.now command.now self.now result }
    {
        let tables = &self.tables;
        match command {
            NodeCommand::PutNode(name, offer) => {
                register_node(tables, pool, name, offer, self.load(pool, name))
            }
            NodeCommand::DeleteNode(name) => remove_node(tables, pool, name),
            NodeCommand::SetStatus(name, status) => self.set_status(pool, name, *status),
            NodeCommand::SetEligible(name, eligible) => set_eligible(tables, pool, name, *eligible),
            NodeCommand::Report(name, report) => ns_jobs::report::report(
                tables, pool, name, report,
            ),
            _ => unreachable!(),
        }
    }

    /// Makes the step of a command that writes, for each secret that has the right.
    fn write_node_command(&mut self, pool: &Text, command: &NodeCommand) -> Result<Reply, Refusal>
        requires valid { IsValid (state_of self.old) }
        requires index { IsIndexed self.old }
        requires writes { only_reads (served_node command.now) ≡ false }
        ensures made { MakesNode pool.now command.now self.old result self.new }
        ensures index { IsIndexed self.new }
    {
        let prepared = self.prepare_node_command(pool, command);
        let content = self.make(prepared)?;
        Ok(plain(content))
    }

    /// Makes the step of a command about a pool, or refuses it and leaves the state as it is.
    pub fn node(
        &mut self,
        pool: &Text,
        secret: Option<&Text>,
        command: &NodeCommand,
    ) -> Result<Reply, Refusal>
        requires valid { IsValid (state_of self.old) }
        requires index { IsIndexed self.old }
        ensures made { let step = Step.Node pool.now (option_copied secret.entry) command.now in
            MakesStep step self.old result self.new }
        ensures index { IsIndexed self.new }
    {
        if !self.may_command(pool, secret, command) {
            return Err(Refusal::Denied);
        }
        match command {
            NodeCommand::ReadPool | NodeCommand::ListNodes => self.read_node_command(pool, command),
            _ => self.write_node_command(pool, command),
        }
    }
}
