//! The server of a script.

use crate::answers::{write_key, write_phase, write_refusal, write_response, write_snapped};
use crate::lent::answered;
use crate::line::{Call, Line, ScriptWork};
use crate::looks::write_looks;
use crate::steps::ScriptStep;
use crate::taken::Snapshots;
use crate::watch::CopyWatch;
use crate::words::{ROOT, write_line};
use anyhow::Context;
use ns_core::Core;
use ns_http::Request;
use ns_types::name::Secret;
use ns_types::refusal::Refusal;
use ns_types::reply::Response;
use ns_types::shared::Shared;
use ns_types::snapshot::Snapshot;
use ns_types::text::Text;
use std::alloc::{AllocError, Global};
use std::io::Write;

#[derive(Drop)]
struct ScriptServer<'a> {
    alloc: Global,
    core: Core,
    /// The secret of the requests that follow.
    token: Option<&'a [u8]>,
    /// The byte that is drawn next.
    next: u8,
    seen: Snapshots,
    watch: CopyWatch<'a>,
}

fn is_done(answer: &Result<Response, AllocError>) -> bool {
    matches!(answer, Ok(Response::Done(_, _)))
}

fn is_unanswered(answer: &Result<Response, AllocError>) -> bool {
    match answer {
        Ok(response) => matches!(response, Response::Refused(Refusal::Memory)),
        Err(_) => true,
    }
}

impl<'a> ScriptServer<'a> {
    fn new(alloc: Global) -> anyhow::Result<ScriptServer<'a>> {
        let root = Secret::read(alloc, ROOT)?.context("a bad secret")?;
        let core = Core::new(alloc, &root)?;
        Ok(ScriptServer {
            alloc,
            core,
            token: Some(ROOT.as_bytes()),
            next: 1,
            seen: Snapshots::new(alloc),
            watch: CopyWatch::new(alloc),
        })
    }

    fn answer(&mut self, request: &Request<'_>) -> Result<Response, AllocError> {
        answered(self.alloc, &mut self.core, &mut self.next, 1, request)
    }

    /// Makes the request. If it is refused for want of memory, it is made once more, with the same draws.
    fn ask(&mut self, request: &Request<'_>) -> anyhow::Result<Response> {
        let before = self.watch.before(&self.core)?;
        let next = self.next;
        let answer = self.answer(request);
        self.watch.after(before, &mut self.core, !is_done(&answer))?;
        if !is_unanswered(&answer) {
            return Ok(answer?);
        }
        drop(answer);
        self.next = next;
        Ok(self.answer(request)?)
    }

    fn request<W: Write>(
        &mut self,
        method: &str,
        target: &str,
        body: &str,
        out: &mut W,
    ) -> anyhow::Result<()> {
        let response = self.ask(&Request {
            method: method.as_bytes(),
            target,
            token: self.token,
            body: body.as_bytes(),
        })?;
        let written = write_response(out, &response);
        drop(response);
        Ok(written?)
    }

    /// Takes a snapshot. If it is refused for want of memory, it is taken once more.
    fn snapped(
        &mut self,
        worker: u64,
        namespace: &Text,
    ) -> anyhow::Result<Result<Shared<Snapshot>, Refusal>> {
        let before = self.watch.before(&self.core)?;
        let seen = self.core.snap(worker, namespace);
        self.watch.after(before, &mut self.core, seen.is_err())?;
        match seen {
            Err(Refusal::Memory) => Ok(self.core.snap(worker, namespace)),
            seen => Ok(seen),
        }
    }

    fn snap<W: Write>(&mut self, worker: u64, namespace: &Text, out: &mut W) -> anyhow::Result<()> {
        match self.snapped(worker, namespace)? {
            Ok(snapshot) => {
                let written = write_snapped(out, snapshot.get().number);
                let kept = self.seen.keep(worker, snapshot);
                written?;
                Ok(kept?)
            }
            Err(refusal) => Ok(write_refusal(out, refusal)?),
        }
    }

    /// Makes a step of the worker in the namespace, and writes the reply.
    fn work<W: Write>(
        &mut self,
        worker: u64,
        namespace: &Text,
        work: ScriptWork,
        out: &mut W,
    ) -> anyhow::Result<()> {
        let alloc = self.alloc;
        match work {
            ScriptWork::Dequeue(number) => {
                let step = ScriptStep::Dequeue(number);
                step.make_and_write(&mut self.core, &self.watch, alloc, worker, namespace, out)
            }
            ScriptWork::Snap => self.snap(worker, namespace, out),
            ScriptWork::Submit(place) => {
                let step = ScriptStep::Submit(self.seen.find(worker, place)?);
                step.make_and_write(&mut self.core, &self.watch, alloc, worker, namespace, out)
            }
            ScriptWork::Apply => {
                ScriptStep::Apply.make_and_write(
                    &mut self.core,
                    &self.watch,
                    alloc,
                    worker,
                    namespace,
                    out,
                )
            }
            ScriptWork::Finish(place) => {
                let step = ScriptStep::Finish(self.seen.find(worker, place)?);
                step.make_and_write(&mut self.core, &self.watch, alloc, worker, namespace, out)
            }
            ScriptWork::Nack => {
                ScriptStep::Nack.make_and_write(
                    &mut self.core,
                    &self.watch,
                    alloc,
                    worker,
                    namespace,
                    out,
                )
            }
        }
    }

    fn call<W: Write>(&mut self, call: Call<'_>, out: &mut W) -> anyhow::Result<()> {
        let written = match call {
            Call::Work(worker, namespace, work) => {
                let namespace = Text::from_str(self.alloc, namespace)?;
                return self.work(worker, &namespace, work, out);
            }
            Call::Served => write_key(out, self.core.served()),
            Call::Planned => write_key(out, self.core.first_plan()),
            Call::Phase(worker) => write_phase(out, &self.core, worker),
            Call::Looks(times, namespace, pool) => {
                return write_looks(out, &self.core, self.alloc, times, namespace, pool);
            }
        };
        Ok(written?)
    }

    /// Does what the line says, and writes the reply.
    fn obey<W: Write>(&mut self, line: Line<'a>, out: &mut W) -> anyhow::Result<()> {
        match line {
            Line::Remark => Ok(()),
            Line::Token(token) => {
                self.token = token;
                Ok(())
            }
            Line::Watch(target) => Ok(self.watch.add(target)?),
            Line::Request(method, target, body) => self.request(method, target, body, out),
            Line::Call(call) => self.call(call, out),
        }
    }

    /// Writes each line, and below it the reply.
    fn play<W: Write>(&mut self, lines: &'a str, out: &mut W) -> anyhow::Result<()> {
        for text in lines.split('\n') {
            write_line(out, &[text])?;
            let line = Line::read(text).context("a line that says nothing")?;
            self.obey(line, out)?;
        }
        Ok(())
    }
}

/// Plays the lines of a script with a new server.
pub fn script<W: Write>(alloc: Global, lines: &str, out: &mut W) -> anyhow::Result<()> {
    let mut server = ScriptServer::new(alloc)?;
    let played = server.play(lines, out);
    drop(server);
    played
}
