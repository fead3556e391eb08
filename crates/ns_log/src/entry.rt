//! Entries of a log, and their lines.

ghost use Rattle.std.specs.Prelude.{◌≡◌, ◌∷◌, [], IfOk, OnOk, string_bytes};
ghost use Rattle.serde_json.specs.Written.{compact_text};
ghost use Rattle.ns_json.specs.Logs.{entry_json, line_of, number_or_null};
ghost use Rattle.ns_json.specs.Part.{Follows, token_of, tokens_of};

use crate::owned::Owned;
use crate::step::write_step;
use json::Writer;
use ns_json::part::{Part, write_parts};
use ns_replies::shown::written_text;
use ns_types::reply::Rendered;
use ns_types::shared::Shared;
use ns_types::step::Step;
use std::alloc::{AllocError, Global};
use std::marker::Model;

/// A step with its answer as bytes. The step has several owners: receipts share it, and what is given out. Contracts see the
/// pair.
pub struct Entry {
    step: Shared<Step>,
    rendered: Owned<Rendered>,
}

impl Drop for Entry {
    fn drop(self) {
        let Entry {
            step: _step,
            rendered: _rendered,
        } = self;
    }
}

impl Model for Entry {
    ghost use Rattle.ns_types.specs.declared.reply.Rendered.{Rendered};
    ghost use Rattle.ns_types.specs.declared.step.Step.{Step};

    ghost Value = { Step × Rendered };

    ghost view = { λ e. (e.step, e.rendered) };
}

impl Entry {
    pub fn new(step: Shared<Step>, rendered: Owned<Rendered>) -> Entry
        ensures { result ≡ (step, rendered) }
    {
        Entry { step, rendered }
    }

    pub fn step(&self) -> &Step
        ensures { result.now ≡ self.now.0 }
    {
        self.step.get()
    }

    pub fn rendered(&self) -> &Rendered
        ensures { result.now ≡ self.now.1 }
    {
        self.rendered.get()
    }
}

/// The number, or null if there is none.
fn number_part<'a>(number: Option<u64>) -> Part<'a>
    ensures { tokens_of (number_or_null number) ≡ token_of result ∷ [] }
{
    match number {
        Some(number) => Part::Number(number),
        None => Part::Null,
    }
}

#[tactic(auto, unfolding(ns_json::specs::Logs::entry_json))]
fn write_entry(
    out: &mut Writer,
    alloc: Global,
    step: &Step,
    rendered: &Rendered,
) -> Result<(), AllocError>
    ensures { OnOk result (Follows out.old out.new
        (tokens_of (entry_json (step.now, rendered.now)))) }
{
    write_parts(
        out,
        &[
            Part::BeginObject,
            Part::Key("Body"),
            Part::Text(rendered.body.as_str()),
            Part::Key("Index"),
            number_part(rendered.index),
            Part::Key("Status"),
            Part::Number(u64::from(rendered.status)),
            Part::Key("Step"),
        ],
    )?;
    write_step(out, alloc, step)?;
    write_parts(out, &[Part::EndObject])
}

/// The line of a step and its answer, with its line feed. Want of memory is the only error.
pub fn entry_line(alloc: Global, step: &Step, rendered: &Rendered) -> Result<String, AllocError>
    ensures { IfOk result (λ line.
        string_bytes line ≡ line_of (compact_text (entry_json (step.now, rendered.now)))) }
{
    let mut out = Writer::new(Vec::new(alloc));
    write_entry(&mut out, alloc, step, rendered)?;
    let mut line = written_text(out);
    line.push_str("\n")?;
    Ok(line)
}
