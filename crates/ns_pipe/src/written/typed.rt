//! What the types of entries guarantee: steps are within the limits, and numbers fit 64 bits.

ghost use Rattle.std.specs.Prelude.{◌^◌, ◌<◌, IsTrue, length};
ghost use Rattle.ns_types.specs.State.Lists.{Each};
ghost use Rattle.ns_types.specs.Within.{IsGoodStep};
ghost use Rattle.ns_log_reader.specs.Lines.{answer_fits, ask_fits, fits, fits_if_any, node_command_fits, step_fits};
ghost use Rattle.ns_pipe.specs.Readable.{IsTyped};

use ns_log::Entry;
use ns_types::reply::Rendered;
use ns_types::step::{AskCommand, NodeCommand, Step};

fn number_fits(number: u64)
    ensures { IsTrue (fits number) }
{
    let _number = number;
}

fn index_fits(index: Option<u64>)
    ensures { IsTrue (fits_if_any index) }
{
    match index {
        Some(index) => number_fits(index),
        None => {}
    }
}

fn ask_fits(command: &AskCommand)
    ensures { IsTrue (ask_fits command.now) }
{
    match command {
        AskCommand::Register(registration) => index_fits(registration.enforced),
        AskCommand::ReadEvaluation(number) => number_fits(*number),
        AskCommand::ReadAllocation(number) => number_fits(*number),
        AskCommand::StopAllocation(number) => number_fits(*number),
        AskCommand::Events(index) => number_fits(*index),
        AskCommand::ListJobs(_) => {}
        AskCommand::ReadJob(_) => {}
        AskCommand::Deregister(_, _) => {}
        AskCommand::JobAllocations(_) => {}
        AskCommand::JobEvaluations(_) => {}
        AskCommand::ListEvaluations(_) => {}
        AskCommand::ListAllocations(_) => {}
        AskCommand::ReadNamespace => {}
        AskCommand::QuotaUsage(_) => {}
    }
}

fn node_command_fits(command: &NodeCommand)
    ensures { IsTrue (node_command_fits command.now) }
{
    match command {
        NodeCommand::Report(_, report) => number_fits(report.number),
        NodeCommand::ReadPool => {}
        NodeCommand::ListNodes => {}
        NodeCommand::PutNode(_, _) => {}
        NodeCommand::DeleteNode(_) => {}
        NodeCommand::SetStatus(_, _) => {}
        NodeCommand::SetEligible(_, _) => {}
    }
}

fn step_is_typed(step: &Step)
    ensures good { IsGoodStep step.now }
    ensures fits { IsTrue (step_fits step.now) }
{
    match step {
        Step::Ask(_, _, command) => ask_fits(command.get()),
        Step::Admin(_, command) => {
            command.get();
        }
        Step::Node(_, _, command) => node_command_fits(command.get()),
        Step::Dequeue(worker, _, number) => {
            number_fits(*worker);
            number_fits(*number);
        }
        Step::Snap(worker, _) => number_fits(*worker),
        Step::Submit(worker, _) => number_fits(*worker),
        Step::Apply(worker, _) => number_fits(*worker),
        Step::Finish(worker, _) => number_fits(*worker),
        Step::Nack(worker, _) => number_fits(*worker),
    }
}

fn answer_is_typed(rendered: &Rendered)
    ensures { IsTrue (answer_fits rendered.now) }
{
    let _status = rendered.status;
    index_fits(rendered.index);
}

fn is_typed(entry: &Entry)
    ensures { IsTyped entry.now }
{
    step_is_typed(entry.step());
    answer_is_typed(entry.rendered());
}

/// Each entry has what its type guarantees: its step is within the limits, and its numbers fit 64 bits. It reads the entries
/// and does nothing.
pub fn each_is_typed(entries: &[Entry])
    ensures typed { Each IsTyped entries.now }
    ensures few { length entries.now < 2 ^ 64 }
{
    for entry in entries {
        is_typed(entry);
    }
    let _len = entries.len();
}
