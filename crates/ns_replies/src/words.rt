//! The words of replies.

ghost use Rattle.std.specs.Prelude.{◌≡◌, []};
ghost use Rattle.std.specs.Option.{option_map_or};
ghost use Rattle.ns_types.specs.Wire.Words.{token_kind_text, node_status_text, eligibility_text, status_text, trigger_text, desired_text, client_text};

use ns_types::acl::TokenKind;
use ns_types::allocation::{ClientStatus, DesiredStatus};
use ns_types::evaluation::{Status, Trigger};
use ns_types::node::NodeStatus;
use ns_types::text::Text;

pub fn token_kind_text<'a>(kind: TokenKind) -> &'a str
    ensures { result.now ≡ token_kind_text kind }
{
    match kind {
        TokenKind::Client => "client",
        TokenKind::Management => "management",
    }
}

pub fn node_status_text<'a>(status: NodeStatus) -> &'a str
    ensures { result.now ≡ node_status_text status }
{
    match status {
        NodeStatus::Ready => "ready",
        NodeStatus::Down => "down",
    }
}

pub fn eligibility_text<'a>(eligible: bool) -> &'a str
    ensures { result.now ≡ eligibility_text eligible }
{
    if eligible { "eligible" } else { "ineligible" }
}

pub fn status_text<'a>(status: Status) -> &'a str
    ensures { result.now ≡ status_text status }
{
    match status {
        Status::Pending => "pending",
        Status::Blocked => "blocked",
        Status::Complete => "complete",
        Status::Failed => "failed",
        Status::Canceled => "canceled",
    }
}

pub fn trigger_text<'a>(trigger: Trigger) -> &'a str
    ensures { result.now ≡ trigger_text trigger }
{
    match trigger {
        Trigger::JobRegister => "job-register",
        Trigger::JobDeregister => "job-deregister",
        Trigger::NodeUpdate => "node-update",
        Trigger::AllocStop => "alloc-stop",
        Trigger::AllocFailure => "alloc-failure",
        Trigger::Preemption => "preemption",
        Trigger::QueuedAllocs => "queued-allocs",
        Trigger::MaxPlanAttempts => "max-plan-attempts",
    }
}

pub fn desired_text(desired: DesiredStatus) -> &'static str
    ensures { result.now ≡ desired_text desired }
{
    match desired {
        DesiredStatus::Run => "run",
        DesiredStatus::Stop => "stop",
        DesiredStatus::Evict => "evict",
    }
}

pub fn client_text(client: ClientStatus) -> &'static str
    ensures { result.now ≡ client_text client }
{
    match client {
        ClientStatus::Pending => "pending",
        ClientStatus::Running => "running",
        ClientStatus::Complete => "complete",
        ClientStatus::Failed => "failed",
        ClientStatus::Lost => "lost",
    }
}

/// The text, or an empty one if there is none.
pub fn text_or_empty(text: &Option<Text>) -> &str
    ensures { result.now ≡ option_map_or (λ t. t) text.now [] }
{
    match text {
        Some(text) => text.as_str(),
        None => "",
    }
}
