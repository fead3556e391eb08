//! Steps.

ghost use Rattle.std.specs.Prelude.{OnOk};
ghost use Rattle.ns_types.specs.declared.step.Step.TheVariants as Step;
ghost use Rattle.ns_json.specs.Logs.{step_members, work_members};
ghost use Rattle.ns_json.specs.Part.{Follows, tokens_of};
ghost use Rattle.ns_json.specs.Rendering.{object_of};

use crate::call::{write_administered, write_asked, write_node_call};
use crate::member::{Member, secret_or_null, write_end, write_object};
use json::Writer;
use ns_json::part::{Part, write_parts};
use ns_types::good::{GoodAdmin, GoodAsk, GoodNodeCommand};
use ns_types::step::Step;
use ns_types::text::Text;
use std::alloc::{AllocError, Global};

fn write_work<'a>(
    out: &mut Writer,
    alloc: Global,
    word: &'a str,
    worker: u64,
    namespace: &'a Text,
) -> Result<(), AllocError>
    ensures { OnOk result (Follows out.old out.new
        (tokens_of (object_of (work_members word.now worker namespace.now)))) }
{
    let members = [
        Member::Word("Kind", word),
        Member::Text("Ns", namespace),
        Member::Number("Worker", worker),
    ];
    write_object(out, alloc, &members)
}

fn write_ask<'a>(
    out: &mut Writer,
    alloc: Global,
    namespace: &'a Text,
    secret: &'a Option<Text>,
    command: &GoodAsk,
) -> Result<(), AllocError>
    ensures { OnOk result (Follows out.old out.new
        (tokens_of (object_of (step_members (Step.Ask namespace.now secret.now command.now))))) }
{
    write_parts(out, &[Part::BeginObject])?;
    write_asked(out, alloc, command.get())?;
    write_end(
        out,
        alloc,
        &[
            Member::Word("Kind", "Ask"),
            Member::Text("Ns", namespace),
            secret_or_null(secret),
        ],
    )
}

fn write_admin(
    out: &mut Writer,
    alloc: Global,
    secret: &Option<Text>,
    command: &GoodAdmin,
) -> Result<(), AllocError>
    ensures { OnOk result (Follows out.old out.new
        (tokens_of (object_of (step_members (Step.Admin secret.now command.now))))) }
{
    write_parts(out, &[Part::BeginObject])?;
    write_administered(out, alloc, command.get())?;
    write_end(
        out,
        alloc,
        &[Member::Word("Kind", "Admin"), secret_or_null(secret)],
    )
}

fn write_node<'a>(
    out: &mut Writer,
    alloc: Global,
    pool: &'a Text,
    secret: &'a Option<Text>,
    command: &GoodNodeCommand,
) -> Result<(), AllocError>
    ensures { OnOk result (Follows out.old out.new
        (tokens_of (object_of (step_members (Step.Node pool.now secret.now command.now))))) }
{
    write_parts(out, &[Part::BeginObject])?;
    write_node_call(out, alloc, command.get())?;
    write_end(
        out,
        alloc,
        &[
            Member::Word("Kind", "Node"),
            Member::Text("Pool", pool),
            secret_or_null(secret),
        ],
    )
}

fn write_dequeue(
    out: &mut Writer,
    alloc: Global,
    worker: u64,
    namespace: &Text,
    number: u64,
) -> Result<(), AllocError>
    ensures { OnOk result (Follows out.old out.new
        (tokens_of (object_of (step_members (Step.Dequeue worker namespace.now number))))) }
{
    let members = [
        Member::Number("Eval", number),
        Member::Word("Kind", "Dequeue"),
        Member::Text("Ns", namespace),
        Member::Number("Worker", worker),
    ];
    write_object(out, alloc, &members)
}

#[tactic(auto, unfolding(ns_json::specs::Logs::step_members))]
pub fn write_step(out: &mut Writer, alloc: Global, step: &Step) -> Result<(), AllocError>
    ensures { OnOk result (Follows out.old out.new
        (tokens_of (object_of (step_members step.now)))) }
{
    match step {
        Step::Ask(ns, secret, command) => write_ask(out, alloc, ns, secret, command),
        Step::Admin(secret, command) => write_admin(out, alloc, secret, command),
        Step::Node(pool, secret, command) => write_node(out, alloc, pool, secret, command),
        Step::Dequeue(worker, ns, number) => write_dequeue(out, alloc, *worker, ns, *number),
        Step::Snap(worker, ns) => write_work(out, alloc, "Snap", *worker, ns),
        Step::Submit(worker, ns) => write_work(out, alloc, "Submit", *worker, ns),
        Step::Apply(worker, ns) => write_work(out, alloc, "Apply", *worker, ns),
        Step::Finish(worker, ns) => write_work(out, alloc, "Finish", *worker, ns),
        Step::Nack(worker, ns) => write_work(out, alloc, "Nack", *worker, ns),
    }
}
