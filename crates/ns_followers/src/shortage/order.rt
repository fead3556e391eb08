//! Classes in their order, each once.

ghost use Rattle.std.specs.Prelude.{◌≡◌, ◌≤◌, length, MatchOption, OnErr, OnOk};
ghost use Rattle.std.specs.BTreeSet.{insert_key};
ghost use Rattle.std.specs.Cmp.Lexicographic.{slice_cmp};
ghost use Rattle.std.specs.List.{insert};
ghost use Rattle.ns_types.specs.State.Names.{attribute_cmp, class_cmp};
ghost use Rattle.ns_followers.specs.Places.{Takes};

use ns_types::node::{Attribute, Class};
use std::alloc::AllocError;
use std::cmp::Ordering;

fn compare_attribute(a: &Attribute, b: &Attribute) -> Ordering
    ensures { result ≡ attribute_cmp a.now b.now }
{
    a.key.cmp(&b.key).then(a.value.cmp(&b.value))
}

fn compare_attributes(a: &[Attribute], b: &[Attribute]) -> Ordering
    ensures { result ≡ slice_cmp attribute_cmp a.now b.now }
{
    match (a, b) {
        ([], []) => Ordering::Equal,
        ([], [_second, _more @ ..]) => Ordering::Less,
        ([_first, _others @ ..], []) => Ordering::Greater,
        ([first, others @ ..], [second, more @ ..]) => {
            compare_attribute(first, second).then(compare_attributes(others, more))
        }
    }
}

fn compare(a: &Class, b: &Class) -> Ordering
    ensures { result ≡ class_cmp a.now b.now }
{
    let by_name = a.name.cmp(&b.name);
    by_name.then(compare_attributes(a.attributes.as_slice(), b.attributes.as_slice()))
}

/// The place in the order where the class belongs. None: it is in the list already.
fn place_of(classes: &[Class], class: &Class) -> Option<usize>
    ensures { Takes class.now classes.now result }
{
    for (i, other) in classes.iter().enumerate() {
        match compare(class, other) {
            Ordering::Less => return Some(i),
            Ordering::Equal => return None,
            Ordering::Greater => {}
        }
    }
    Some(classes.len())
}

/// Adds the class at its place in the order, unless it is in the list already.
pub(crate) fn add(classes: &mut Vec<Class>, class: Class) -> Result<(), AllocError>
    ensures ok { OnOk result (classes.new.items ≡ insert_key class_cmp classes.old.items class) }
    ensures err { OnErr result (classes.new.items ≡ classes.old.items) }
{
    if let Some(place) = place_of(classes.as_slice(), &class) {
        classes.insert(place, class)?;
    }
    Ok(())
}
