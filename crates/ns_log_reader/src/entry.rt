//! Reads entries.

ghost use Rattle.std.specs.Prelude.{◌≤◌, ◌^◌, nat_lt, IfOk, IsTrue};
ghost use Rattle.serde_json.specs.Data.{depth};
ghost use Rattle.serde_json.specs.Read.{max_depth};
ghost use Rattle.serde_json.specs.View.{view};
ghost use Rattle.ns_types.specs.Within.{IsGoodStep};
ghost use Rattle.ns_log_reader.specs.Lines.{IsAsRead, answer_fits, step_fits};
ghost use Rattle.ns_log_reader.specs.Reading.{Gives, same, status_code_in, answer_in, entry_in};

use crate::fault::LineFault;
use crate::member::{body, member, number, number_or_null};
use crate::step::step;
use ns_log::{Entry, Owned};
use ns_types::reply::Rendered;
use ns_types::shared::Shared;
use serde_json::Value;
use std::alloc::Global;

#[tactic(auto, unfolding(crate::specs::Reading::status_code_in))]
fn status_code(entry: &Value) -> Result<u16, LineFault>
    ensures value { Gives same result (status_code_in (view entry.now)) }
    ensures fits { IfOk result (λ n. IsTrue (nat_lt n (2 ^ 16))) }
{
    match u16::try_from(number(entry, "Status")?) {
        Ok(status) => Ok(status),
        Err(_) => Err(LineFault::Bad),
    }
}

#[tactic(auto, unfolding(crate::specs::Reading::answer_in))]
fn answer(alloc: Global, entry: &Value) -> Result<Rendered, LineFault>
    ensures value { Gives same result (answer_in (view entry.now)) }
    ensures fits { IfOk result (λ r. IsTrue (answer_fits r)) }
{
    let body = body(alloc, entry, "Body")?;
    let index = number_or_null(entry, "Index")?;
    let status = status_code(entry)?;
    Ok(Rendered {
        status,
        index,
        body,
    })
}

/// Reads the entry of a line from the line's JSON.
#[tactic(auto, unfolding(crate::specs::Reading::entry_in))]
pub fn entry(alloc: Global, value: &Value) -> Result<Entry, LineFault>
    requires { depth (view value.now) ≤ max_depth }
    ensures value { Gives same result (entry_in (view value.now)) }
    ensures good { IfOk result (λ e. IsGoodStep e.0) }
    ensures as_read { IfOk result (λ e. IsAsRead e.0) }
    ensures step_fits { IfOk result (λ e. IsTrue (step_fits e.0)) }
    ensures answer_fits { IfOk result (λ e. IsTrue (answer_fits e.1)) }
{
    let rendered = answer(alloc, value)?;
    let step = step(alloc, member(value, "Step")?)?;
    let shared = Shared::new(alloc, step)?;
    let owned = Owned::boxed(alloc, rendered)?;
    Ok(Entry::new(shared, owned))
}
