//! Commands about a namespace, as steps over the parts.

ghost use Rattle.std.specs.Prelude.{◌≡◌, false, option_copied, true};
ghost use Rattle.ns_types.specs.declared.step.Step.TheVariants as Step;
ghost use Rattle.ns_types.specs.Access.Rights.{rights_of};
ghost use Rattle.ns_types.specs.Asking.Asks.{right_of};
ghost use Rattle.ns_jobs.specs.Read.{only_reads};
ghost use Rattle.ns_core.specs.Answering.{MakesAsk, MakesStep, PreparesAsk};
ghost use Rattle.ns_types.specs.Validity.{IsValid};
ghost use Rattle.ns_core.specs.Held.{IsIndexed, IsKept};
ghost use Rattle.ns_core.specs.Viewed.{state_of};

use crate::parts::Parts;
use crate::rights::has_any;
use ns_change::Prepared;
use ns_types::refusal::Refusal;
use ns_types::reply::Reply;
use ns_types::step::AskCommand;
use ns_types::text::Text;

impl Parts {
    /// Whether the secret gives the right to the command.
    fn may_ask(&self, namespace: &Text, secret: Option<&Text>, command: &AskCommand) -> bool
        ensures { let rights = rights_of self.now.acl (option_copied secret.entry) namespace.now in
            result ≡ right_of command.now rights }
    {
        let rights = self.acl.rights(secret, namespace);
        match command {
            AskCommand::ListJobs(_) => rights.list_jobs,
            AskCommand::Register(_) | AskCommand::Deregister(_, _) => rights.submit_job,
            AskCommand::StopAllocation(_) => rights.alloc_lifecycle,
            AskCommand::ReadNamespace => has_any(rights),
            _ => rights.read_job,
        }
    }

    /// Answers a command that only reads, for each secret that has the right.
    fn read(&self, namespace: &Text, command: &AskCommand) -> Result<Reply, Refusal>
        requires kept { IsKept self.now }
        requires reads { only_reads command.now ≡ true }
        ensures { MakesAsk namespace.now command.now self.now result self.now }
    {
        let index = self.index(namespace);
        match ns_jobs::read(&self.tables, &self.live, namespace, command) {
            Ok(content) => Ok(Reply { index, content }),
            Err(refusal) => Err(refusal),
        }
    }

    /// Prepares the reply and the change of a command that writes, for each secret that has the right.
    fn prepare(&self, namespace: &Text, command: &AskCommand) -> Result<Prepared, Refusal>
        requires valid { IsValid (state_of self.now) }
        requires writes { only_reads command.now ≡ false }
        ensures { PreparesAsk namespace.now command.now self.now result }
    {
        match command {
            AskCommand::Register(registration) => {
                ns_jobs::register(&self.tables, namespace, registration)
            }
            AskCommand::Deregister(id, purge) => {
                ns_jobs::deregister(&self.tables, namespace, id, *purge)
            }
            AskCommand::StopAllocation(number) => {
                ns_jobs::stop_allocation(&self.tables, namespace, *number)
            }
            _ => unreachable!(),
        }
    }

    /// Makes the step of a command that writes, for each secret that has the right.
    fn write(&mut self, namespace: &Text, command: &AskCommand) -> Result<Reply, Refusal>
        requires valid { IsValid (state_of self.old) }
        requires index { IsIndexed self.old }
        requires writes { only_reads command.now ≡ false }
        ensures made { MakesAsk namespace.now command.now self.old result self.new }
        ensures index { IsIndexed self.new }
    {
        let prepared = self.prepare(namespace, command);
        match self.make(prepared) {
            Ok(content) => Ok(Reply {
                index: self.index(namespace),
                content,
            }),
            Err(refusal) => Err(refusal),
        }
    }

    /// Makes the step of the command, or refuses it and leaves the state as it is.
    pub fn ask(
        &mut self,
        namespace: &Text,
        secret: Option<&Text>,
        command: &AskCommand,
    ) -> Result<Reply, Refusal>
        requires { IsKept self.old }
        ensures made { let step = Step.Ask namespace.now (option_copied secret.entry) command.now in
            MakesStep step self.old result self.new }
        ensures index { IsIndexed self.new }
    {
        if !self.may_ask(namespace, secret, command) {
            return Err(Refusal::Denied);
        }
        match command {
            AskCommand::Register(_)
            | AskCommand::Deregister(_, _)
            | AskCommand::StopAllocation(_) => self.write(namespace, command),
            _ => self.read(namespace, command),
        }
    }
}
