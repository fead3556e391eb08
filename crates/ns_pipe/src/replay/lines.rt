//! The lines of a namespace's own entries.

ghost use Rattle.std.specs.Prelude.{◌≡◌, ◌+◌, ◌^◌, ◌<◌, ◌++◌, IfOk, OnOk, length, string_bytes};
ghost use Rattle.ns_types.specs.Isolation.{part_of};
ghost use Rattle.ns_pipe.specs.Text.{answer_line, own_lines};

use ns_log::Entry;
use ns_replay::is_own;
use ns_types::reply::Rendered;
use ns_types::text::Text;
use std::alloc::{AllocError, Global};

/// Adds the line of an answer: the place of its entry, its status and its body. Want of memory is
/// the only error.
fn push_answer(text: &mut String, place: u64, answer: &Rendered) -> Result<(), AllocError>
    ensures { OnOk result
        (string_bytes text.new ≡ string_bytes text.old ++ answer_line place answer.now) }
{
    let body = answer.body.as_str();
    writeln!(text, "{place} {} {body}", answer.status)
}

/// The lines of those entries whose steps are the namespace's own, with these pools and these
/// quotas. The first entry stands at the place `first`. Want of memory is the only error.
pub fn own_lines(
    alloc: Global,
    first: u64,
    entries: &[Entry],
    namespace: &Text,
    pools: &[Text],
    quotas: &[Text],
) -> Result<String, AllocError>
    requires { first + length entries.now < 2 ^ 64 }
    ensures { let part = part_of namespace.now pools.now quotas.now in
        IfOk result (λ text. string_bytes text ≡ own_lines part first entries.now) }
{
    let mut text = String::new(alloc);
    for (index, entry) in entries.iter().enumerate() {
        if is_own(entry.step(), namespace, pools, quotas) {
            push_answer(&mut text, first + index as u64, entry.rendered())?;
        }
    }
    Ok(text)
}
