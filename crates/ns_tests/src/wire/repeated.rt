// Long texts.
use std::alloc::{AllocError, Global};

/// A text, repeated `times` times, between two others.
fn joined(
    alloc: Global,
    before: &str,
    repeated: &str,
    times: usize,
    after: &str,
) -> Result<String, AllocError> {
    let mut text = String::from_str(alloc, before)?;
    for _ in 0..times {
        text.push_str(repeated)?;
    }
    text.push_str(after)?;
    Ok(text)
}

/// A text, repeated `times` times, between two others. It is built again if memory ran out.
pub(crate) fn repeated(
    alloc: Global,
    before: &str,
    item: &str,
    times: usize,
    after: &str,
) -> Result<String, AllocError> {
    match joined(alloc, before, item, times, after) {
        Ok(text) => Ok(text),
        Err(_) => joined(alloc, before, item, times, after),
    }
}
