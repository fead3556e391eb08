//! Jobs as lists show them.

ghost use Rattle.std.specs.Prelude.{◌≡◌};
ghost use Rattle.ns_json.specs.Rendering.{listed_job_json};

use crate::shown::Shown;
use json::Writer;
use ns_json::job_reply::{kind_text, status_text};
use ns_json::part::{Part, write_parts};
use ns_types::job::{Job, JobKind};
use ns_types::reply::JobShown;
use std::alloc::AllocError;

fn priority(job: &Job) -> u64
    ensures { result ≡ job.now.document.priority }
{
    job.document.get().priority
}

fn kind(job: &Job) -> JobKind
    ensures { result ≡ job.now.document.kind }
{
    job.document.get().kind
}

impl Shown for JobShown {
    ghost json = { λ job. listed_job_json job };

    fn write_json(&self, out: &mut Writer) -> Result<(), AllocError> {
        write_parts(
            out,
            &[
                Part::BeginObject,
                Part::Key("ID"),
                Part::Text(self.id.as_str()),
                Part::Key("JobModifyIndex"),
                Part::Number(self.row.modify_index),
                Part::Key("Namespace"),
                Part::Text(self.namespace.as_str()),
                Part::Key("Priority"),
                Part::Number(priority(&self.row)),
                Part::Key("Status"),
                Part::Text(status_text(self.status)),
                Part::Key("Type"),
                Part::Text(kind_text(kind(&self.row))),
                Part::EndObject,
            ],
        )
    }
}
