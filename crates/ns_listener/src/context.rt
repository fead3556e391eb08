//! What the threads of a server share.

use crate::Listener;
use crate::accept_limit::AcceptLimit;
use crate::connection_threads::ConnectionThreads;
use crate::start::Start;
use ns_work_lock::Shared;
use std::sync::ledger::Ledger;

#[derive(Drop)]
pub struct Context<'a, L: Ledger> {
    pub shared: &'a Shared<L>,
    pub listener: &'a Listener,
    pub accept_limit: AcceptLimit,
    pub connection_threads: ConnectionThreads,
    pub start: Start,
    /// How many seconds a read or a write of a connection may wait. None: without a bound.
    pub idle: Option<u64>,
}
