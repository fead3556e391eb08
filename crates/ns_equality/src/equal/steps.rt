//! Steps of any kind, and their answers.

ghost use Rattle.std.specs.Prelude.{◌≡◌, ◌↔◌, IsTrue};

use crate::equal::Equal;
use ns_types::reply::Rendered;
use ns_types::step::Step;
use ns_types::text::Text;

/// Whether both have the same worker, and the same namespace that it works for.
fn same_worker(worker: u64, namespace: &Text, other: u64, second: &Text) -> bool
    ensures { IsTrue result ↔ ((worker ≡ other) × (namespace.now ≡ second.now)) }
{
    worker.equal(&other) && namespace.equal(second)
}

impl Equal for Step {
    fn equal(&self, other: &Step) -> bool {
        match (self, other) {
            (Step::Ask(x, secret, asked), Step::Ask(y, second, also)) => {
                x.equal(y) && secret.equal(second) && asked.get().equal(also.get())
            }
            (Step::Admin(secret, asked), Step::Admin(second, also)) => {
                secret.equal(second) && asked.get().equal(also.get())
            }
            (Step::Node(x, secret, asked), Step::Node(y, second, also)) => {
                x.equal(y) && secret.equal(second) && asked.get().equal(also.get())
            }
            (Step::Dequeue(w, x, n), Step::Dequeue(v, y, m)) => {
                same_worker(*w, x, *v, y) && n.equal(m)
            }
            (Step::Snap(w, x), Step::Snap(v, y)) => same_worker(*w, x, *v, y),
            (Step::Submit(w, x), Step::Submit(v, y)) => same_worker(*w, x, *v, y),
            (Step::Apply(w, x), Step::Apply(v, y)) => same_worker(*w, x, *v, y),
            (Step::Finish(w, x), Step::Finish(v, y)) => same_worker(*w, x, *v, y),
            (Step::Nack(w, x), Step::Nack(v, y)) => same_worker(*w, x, *v, y),
            _ => false,
        }
    }
}

/// The parts of an answer: its status, its index and its body.
impl Equal for Rendered {
    fn equal(&self, other: &Rendered) -> bool {
        self.status == other.status
            && self.index.equal(&other.index)
            && self.body.equal(&other.body)
    }
}
