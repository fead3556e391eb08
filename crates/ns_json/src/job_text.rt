//! The text of a job in replies: the fixed parts are constants, and the rest is copied right from the job's row.

ghost use Rattle.std.specs.Prelude.{◌≡◌, ℕ, List, [], ◌∷◌, ◌++◌, OnOk, IfOk, IfSome, codes, decimal, string_bytes};
ghost use Rattle.std.specs.List.{flat_map, list_all};
ghost use Rattle.json.specs.Print.{escape};
ghost use Rattle.json.specs.Run.{is_plain};
ghost use Rattle.serde_json.specs.Written.{compact_text};
ghost use Rattle.ns_types.specs.Wire.Words.{job_status_text, kind_text};
ghost use Rattle.ns_json.specs.JobText.{Continues, joined, member_text, numbered, spelled, stop_text, texted};
ghost use Rattle.ns_json.specs.Rendering.{constraint_json, group_json, job_json, task_json};

use crate::job_reply::{operand_text, target_text};
use crate::text_buffer::TextBuffer;
use itoa::Buffer;
use json::Writer;
use ns_types::job::{Constraint, Group, JobKind, Task};
use ns_types::reply::{JobShown, JobStatus};
use std::alloc::{AllocError, Global};

/// Inlined, as what passes it constants is, so that these are copied without a call.
#[inline(always)]
fn push(out: &mut TextBuffer, text: &str) -> Result<(), AllocError>
    ensures { OnOk result (Continues out.old out.new text.now) }
{
    out.push(text)
}

/// Whether no byte of a JSON string with this text is escaped. A loop, as most texts are shorter than a group of bytes that
/// `all` looks at together.
fn is_plain(text: &str) -> bool
    ensures { result ≡ list_all is_plain text.now }
{
    for b in text.as_bytes() {
        if *b == b'"' || *b == b'\\' || *b < 32 {
            return false;
        }
    }
    true
}

/// The text between its quotes.
fn without_quotes(text: &str) -> &str
    ensures { (inner : List ℕ) → text.now ≡ 34 ∷ (inner ++ 34 ∷ []) → result.now ≡ inner }
{
    let rest = text.strip_prefix('"').unwrap_or(text);
    rest.strip_suffix('"').unwrap_or(rest)
}

/// Adds the text as it stands in a JSON string in which some bytes are escaped.
fn push_escaped(out: &mut TextBuffer, alloc: Global, text: &str) -> Result<(), AllocError>
    ensures { OnOk result (Continues out.old out.new
        (escape text.now)) }
{
    let mut writer = Writer::new(Vec::new(alloc));
    writer.string(text)?;
    // What a writer wrote is UTF-8.
    let quoted = unsafe { String::from_utf8_unchecked(writer.into_inner()) };
    push(out, without_quotes(quoted.as_str()))
}

/// Adds the text as it stands in a JSON string, without the quotes.
fn push_text(out: &mut TextBuffer, alloc: Global, text: &str) -> Result<(), AllocError>
    ensures { OnOk result (Continues out.old out.new
        (escape text.now)) }
{
    if is_plain(text) {
        return push(out, text);
    }
    push_escaped(out, alloc, text)
}

/// The number of one digit.
#[tactic(auto, using(std::proofs::lemmas::Fmt::decimal_digit))]
fn digit<'a>(n: u64) -> Option<&'a str>
    ensures { IfSome result (λ text. text.now ≡ decimal n) }
{
    match n {
        0 => Some("0"),
        1 => Some("1"),
        2 => Some("2"),
        3 => Some("3"),
        4 => Some("4"),
        5 => Some("5"),
        6 => Some("6"),
        7 => Some("7"),
        8 => Some("8"),
        9 => Some("9"),
        _ => None,
    }
}

fn push_number(out: &mut TextBuffer, n: u64) -> Result<(), AllocError>
    ensures { OnOk result (Continues out.old out.new
        (decimal n)) }
{
    if let Some(text) = digit(n) {
        return push(out, text);
    }
    let mut buffer = Buffer::new();
    push(out, buffer.format(n))
}

/// Adds the text `before`, and the number.
#[inline(always)]
fn push_numbered(out: &mut TextBuffer, before: &str, n: u64) -> Result<(), AllocError>
    ensures { OnOk result (Continues out.old out.new
        (numbered before.now n)) }
{
    push(out, before)?;
    push_number(out, n)
}

/// Adds the text `before`, which ends with a quote, and the other text behind that quote.
#[inline(always)]
fn push_texted(
    out: &mut TextBuffer,
    alloc: Global,
    before: &str,
    text: &str,
) -> Result<(), AllocError>
    ensures { OnOk result (Continues out.old out.new
        (spelled before.now text.now)) }
{
    push(out, before)?;
    push_text(out, alloc, text)
}

#[tactic(auto, unfolding(crate::specs::Rendering::constraint_json))]
fn push_constraint(
    out: &mut TextBuffer,
    alloc: Global,
    constraint: &Constraint,
) -> Result<(), AllocError>
    ensures { OnOk result (Continues out.old out.new
        (compact_text (constraint_json constraint.now))) }
{
    let target = target_text(alloc, &constraint.target)?;
    push_texted(out, alloc, "{\"LTarget\":\"", target.as_str())?;
    let operand = operand_text(constraint.operand);
    push_texted(out, alloc, "\",\"Operand\":\"", operand)?;
    push_texted(out, alloc, "\",\"RTarget\":\"", constraint.value.as_str())?;
    push(out, "\"}")
}

/// Adds the constraints, each behind a comma.
fn push_more_constraints(
    out: &mut TextBuffer,
    alloc: Global,
    constraints: &[Constraint],
) -> Result<(), AllocError>
    ensures { OnOk result (Continues out.old out.new
        (flat_map (λ x. 44 ∷ compact_text (constraint_json x)) constraints.now)) }
{
    for constraint in constraints {
        push(out, ",")?;
        push_constraint(out, alloc, constraint)?;
    }
    Ok(())
}

fn push_constraints(
    out: &mut TextBuffer,
    alloc: Global,
    constraints: &[Constraint],
) -> Result<(), AllocError>
    ensures { OnOk result (Continues out.old out.new
        (joined (λ x. compact_text (constraint_json x)) constraints.now)) }
{
    let [first, rest @ ..] = constraints else {
        return Ok(());
    };
    push_constraint(out, alloc, first)?;
    push_more_constraints(out, alloc, rest)
}

#[tactic(auto, unfolding(crate::specs::Rendering::task_json))]
fn push_task(out: &mut TextBuffer, alloc: Global, task: &Task) -> Result<(), AllocError>
    ensures { OnOk result (Continues out.old out.new
        (compact_text (task_json task.now))) }
{
    push_texted(out, alloc, "{\"Name\":\"", task.name.as_str())?;
    push_numbered(out, "\",\"Resources\":{\"CPU\":", task.resources.cpu)?;
    push_numbered(out, ",\"MemoryMB\":", task.resources.memory)?;
    push(out, "}}")
}

/// Adds the tasks, each behind a comma.
fn push_more_tasks(out: &mut TextBuffer, alloc: Global, tasks: &[Task]) -> Result<(), AllocError>
    ensures { OnOk result (Continues out.old out.new
        (flat_map (λ x. 44 ∷ compact_text (task_json x)) tasks.now)) }
{
    for task in tasks {
        push(out, ",")?;
        push_task(out, alloc, task)?;
    }
    Ok(())
}

fn push_tasks(out: &mut TextBuffer, alloc: Global, tasks: &[Task]) -> Result<(), AllocError>
    ensures { OnOk result (Continues out.old out.new
        (joined (λ x. compact_text (task_json x)) tasks.now)) }
{
    let [first, rest @ ..] = tasks else {
        return Ok(());
    };
    push_task(out, alloc, first)?;
    push_more_tasks(out, alloc, rest)
}

#[tactic(auto, unfolding(crate::specs::Rendering::group_json))]
fn push_group(out: &mut TextBuffer, alloc: Global, group: &Group) -> Result<(), AllocError>
    ensures { OnOk result (Continues out.old out.new
        (compact_text (group_json group.now))) }
{
    push_numbered(out, "{\"Count\":", group.count)?;
    push_numbered(out, ",\"EphemeralDisk\":{\"SizeMB\":", group.disk)?;
    push_texted(out, alloc, "},\"Name\":\"", group.name.as_str())?;
    push(out, "\",\"Tasks\":[")?;
    push_tasks(out, alloc, group.tasks.as_slice())?;
    push(out, "]}")
}

/// Adds the groups, each behind a comma.
fn push_more_groups(out: &mut TextBuffer, alloc: Global, groups: &[Group]) -> Result<(), AllocError>
    ensures { OnOk result (Continues out.old out.new
        (flat_map (λ x. 44 ∷ compact_text (group_json x)) groups.now)) }
{
    for group in groups {
        push(out, ",")?;
        push_group(out, alloc, group)?;
    }
    Ok(())
}

fn push_groups(out: &mut TextBuffer, alloc: Global, groups: &[Group]) -> Result<(), AllocError>
    ensures { OnOk result (Continues out.old out.new
        (joined (λ x. compact_text (group_json x)) groups.now)) }
{
    let [first, rest @ ..] = groups else {
        return Ok(());
    };
    push_group(out, alloc, first)?;
    push_more_groups(out, alloc, rest)
}

/// The member with a job's status.
#[tactic(auto, unfolding(json::specs::Print::escape_byte))]
fn status_member<'a>(status: JobStatus) -> &'a str
    ensures { result.now ≡ texted (codes ",\"Status\":") (job_status_text status) }
{
    match status {
        JobStatus::Dead => ",\"Status\":\"dead\"",
        JobStatus::Running => ",\"Status\":\"running\"",
        JobStatus::Pending => ",\"Status\":\"pending\"",
    }
}

/// The end of the groups, and the member with a job's type.
#[tactic(auto, unfolding(json::specs::Print::escape_byte))]
fn type_member<'a>(kind: JobKind) -> &'a str
    ensures { result.now ≡ texted (codes "],\"Type\":") (kind_text kind) }
{
    match kind {
        JobKind::Service => "],\"Type\":\"service\"",
        JobKind::Batch => "],\"Type\":\"batch\"",
    }
}

/// The member that says whether the job was stopped, and what stands between it and the groups.
fn stop_text<'a>(stop: bool) -> &'a str
    ensures { result.now ≡ stop_text stop }
{
    if stop {
        ",\"Stop\":true,\"TaskGroups\":["
    } else {
        ",\"Stop\":false,\"TaskGroups\":["
    }
}

/// Adds the members between the constraints and the groups.
#[tactic(auto, unfolding(crate::specs::JobText::member_text))]
fn push_members(out: &mut TextBuffer, alloc: Global, job: &JobShown) -> Result<(), AllocError>
    ensures { OnOk result (Continues out.old out.new
        (member_text job.now)) }
{
    let document = job.row.document.get();
    let status = status_member(job.status);
    push_numbered(out, "],\"CreateIndex\":", job.row.create_index)?;
    push_texted(out, alloc, ",\"ID\":\"", job.id.as_str())?;
    push_numbered(out, "\",\"JobModifyIndex\":", job.row.modify_index)?;
    push_texted(out, alloc, ",\"Namespace\":\"", job.namespace.as_str())?;
    push_texted(out, alloc, "\",\"NodePool\":\"", document.pool.as_str())?;
    push_numbered(out, "\",\"Priority\":", document.priority)?;
    push(out, status)?;
    let stop = stop_text(job.row.stop);
    push(out, stop)
}

#[tactic(auto, unfolding(crate::specs::Rendering::job_json))]
fn push_job(out: &mut TextBuffer, alloc: Global, job: &JobShown) -> Result<(), AllocError>
    ensures { OnOk result (Continues out.old out.new
        (compact_text (job_json job.now))) }
{
    let document = job.row.document.get();
    push(out, "{\"Constraints\":[")?;
    push_constraints(out, alloc, document.constraints.as_slice())?;
    push_members(out, alloc, job)?;
    push_groups(out, alloc, document.groups.as_slice())?;
    let kind = type_member(document.kind);
    push(out, kind)?;
    push_numbered(out, ",\"Version\":", job.row.version)?;
    push(out, "}")
}

/// The text of a job. Want of memory is the only error.
pub fn job_text(alloc: Global, job: &JobShown) -> Result<String, AllocError>
    ensures { IfOk result (λ s. string_bytes s ≡ compact_text (job_json job.now)) }
{
    let mut out = TextBuffer::new(alloc);
    push_job(&mut out, alloc, job)?;
    out.into_string()
}
