//! The best of the nodes with room. Nomad's page "How Nomad job placement works".

ghost use Rattle.std.specs.Prelude.{◌≡◌, IsTrue};
ghost use Rattle.ns_types.specs.Placing.Placement.{best_fit, better, fits};

use crate::candidate::Candidate;
use ns_types::resources::{Resources, compare, is_within, minus};

/// Whether the job may use the node and the size has room there.
pub(crate) fn fits(candidate: &Candidate<'_>, size: Resources) -> bool
    ensures { result ≡ fits size candidate.now }
{
    candidate.is_feasible() && is_within(size, candidate.left())
}

fn is_better(candidate: &Candidate<'_>, other: &Candidate<'_>, size: Resources) -> bool
    requires mine { IsTrue (fits size candidate.now) }
    requires others { IsTrue (fits size other.now) }
    ensures { result ≡ better size candidate.now other.now }
{
    let mine = minus(candidate.left(), size);
    let others = minus(other.left(), size);
    compare(mine, others)
        .then(candidate.name().cmp(other.name()))
        .is_lt()
}

/// The place of the best of the nodes that fit: the one with the least CPU left afterwards, then the least memory, then the
/// least disk, then the least name. None only where no node fits. It takes no memory.
pub fn best_node(candidates: &[Candidate<'_>], size: Resources) -> Option<usize>
    ensures { result ≡ best_fit size candidates.now }
{
    let mut best: Option<usize> = None;
    for i in 0..candidates.len() {
        let candidate = &candidates[i];
        if fits(candidate, size) {
            best = match best {
                Some(b) if !is_better(candidate, &candidates[b], size) => Some(b),
                _ => Some(i),
            };
        }
    }
    best
}
