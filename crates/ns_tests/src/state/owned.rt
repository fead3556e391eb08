// Generic functions that own a large value, so that the code of a test only has a reference to it.

use std::alloc::AllocError;
use std::process::Abort;

/// What `look` returns for the value, which is then dropped.
pub(crate) fn seen<T: Drop, S, F: FnOnce(&T) -> S>(value: T, look: F) -> S
    requires { F.IsAlwaysCallable look }
{
    look(&value)
}

/// What `make` returns for the state, which it may change. The state is then dropped.
pub(crate) fn with<T: Drop, S, F: FnOnce(&mut T) -> S>(
    rt: &impl Abort,
    state: Result<T, AllocError>,
    make: F,
) -> S
    requires { F.IsAlwaysCallable make }
{
    let mut state = state.expect(rt, "memory");
    make(&mut state)
}

/// Adds the row.
pub(crate) fn push<T: Drop>(rt: &impl Abort, rows: &mut Vec<T>, row: T) {
    rows.push(row).expect(rt, "memory");
}
