// Lists so deep that no stored text has them, and the texts of faults. A call that is refused for want of memory is made once
// more.
use crate::wire::repeated::repeated;
use ns_policy::{RuleFault, read_rules};
use ns_types::acl::Rule;
use ns_types::rows::Rows;
use std::alloc::{AllocError, Global};
use std::test::Fail;

fn read(alloc: Global, text: &str) -> Result<Rows<Rule>, RuleFault> {
    match read_rules(alloc, text) {
        Err(RuleFault::Memory) => read_rules(alloc, text),
        answer => answer,
    }
}

fn fault_of(alloc: Global, text: &str) -> Option<RuleFault> {
    read(alloc, text).err()
}

/// The fault of an attribute whose value is `depth` lists, one in the other, and that is followed by `end`.
fn fault_of_lists(alloc: Global, depth: usize, end: &str) -> Result<Option<RuleFault>, AllocError> {
    let opened = repeated(alloc, "x=", "[", depth, "")?;
    let text = repeated(alloc, opened.as_str(), "]", depth, end)?;
    Ok(fault_of(alloc, text.as_str()))
}

#[test]
fn reads_deep_lists(rt: HostRuntime) -> Result<(), Fail> {
    let alloc = rt.alloc();
    assert_eq!(rt; fault_of_lists(alloc, 30_000, "")?, None);
    assert_eq!(rt;
        fault_of_lists(alloc, 30_000, "]")?,
        Some(RuleFault::Syntax)
    );
    Ok(())
}

/// Whether the fault is shown as this text.
fn is_shown_as(alloc: Global, fault: RuleFault, text: &str) -> Result<bool, AllocError> {
    let shown = format!(in alloc; "{fault}")?;
    Ok(shown.as_str() == text)
}

#[test]
fn texts_of_faults(rt: HostRuntime) -> Result<(), Fail> {
    let alloc = rt.alloc();
    let syntax = "the text is not a list of rules";
    assert!(rt; is_shown_as(alloc, RuleFault::Syntax, syntax)?);
    let value = "a pattern, a policy or a capability is not valid";
    assert!(rt; is_shown_as(alloc, RuleFault::Value, value)?);
    assert!(rt; is_shown_as(alloc, RuleFault::Memory, "out of memory")?);
    Ok(())
}
