//! Which released room, and which quota, wakes an evaluation. It takes no memory: it compares a node's offer with a class and
//! builds no class.

ghost use Rattle.std.specs.Prelude.{◌≡◌, false, filter, not};
ghost use Rattle.std.specs.Cmp.Lexicographic.{pointwise};
ghost use Rattle.std.specs.Option.{option_map_or};
ghost use Rattle.std.specs.Ordering.{eq_by_cmp};
ghost use Rattle.ns_types.specs.State.Names.{attribute_cmp, has_class, same_class, same_name};
ghost use Rattle.ns_types.specs.State.Rows.{is_unique, offered_class};
ghost use Rattle.ns_types.specs.Settling.Releases.{can_use};
ghost use Rattle.ns_release.specs.Released.{at_room};

use crate::asking::Question;
use ns_equality::{is_unique, same_attribute, same_text};
use ns_types::evaluation::Evaluation;
use ns_types::node::{Attribute, Class, Offer};
use ns_types::text::Text;

/// Whether a node's attributes that are not unique are the attributes of a class.
fn are_shared(attributes: &[Attribute], shared: &[Attribute]) -> bool
    ensures { result ≡ pointwise (eq_by_cmp attribute_cmp)
        (filter (λ a. not (is_unique a.key)) attributes.now) shared.now }
{
    let [first, others @ ..] = attributes else {
        return shared.is_empty();
    };
    if is_unique(&first.key) {
        return are_shared(others, shared);
    }
    match shared {
        [second, more @ ..] => same_attribute(first, second) && are_shared(others, more),
        [] => false,
    }
}

/// Whether a node with this offer is of the class.
fn is_of_class(class: &Class, offer: &Offer) -> bool
    ensures { result ≡ same_class (offered_class offer.now) class.now }
{
    same_text(&offer.class, &class.name)
        && are_shared(offer.attributes.as_slice(), class.attributes.as_slice())
}

fn has_class_of(classes: &[Class], offer: &Offer) -> bool
    ensures { result ≡ has_class classes.now (offered_class offer.now) }
{
    classes.iter().any(|class| is_of_class(class, offer))
}

/// Whether the evaluation can use room on a node with this offer.
fn can_use(evaluation: &Evaluation, offer: &Offer) -> bool
    ensures { result ≡ can_use evaluation.now (offered_class offer.now) }
{
    evaluation.escapes || !has_class_of(evaluation.infeasible.as_slice(), offer)
}

/// The question whether a release wakes the evaluation: room in its pool that it can use, or the quota that limits it.
impl Question for Evaluation {
    ghost of_room = { λ e room. at_room e.pool (can_use e) room };

    ghost of_quota = { λ e quota. option_map_or (λ own. same_name own quota) e.quota false };

    fn is_room(&self, pool: &Text, offer: &Offer) -> bool {
        same_text(&self.pool, pool) && can_use(self, offer)
    }

    fn is_quota(&self, quota: &Text) -> bool {
        match &self.quota {
            Some(own) => same_text(own, quota),
            None => false,
        }
    }
}
