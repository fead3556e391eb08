//! What a line of a script says.

use crate::words::{first_word, number};
use ns_types::name::{Name, NameKind};

#[derive(Clone, Copy)]
pub enum Line<'a> {
    /// Empty, or a comment.
    Remark,
    /// From now on each call is watched by a read of this target, besides the earlier ones.
    Watch(&'a str),
    /// The secret of the requests that follow, if they have one.
    Token(Option<&'a [u8]>),
    /// Method, target and body.
    Request(&'a str, &'a str, &'a str),
    Call(Call<'a>),
}

/// A worker's step in a namespace.
#[derive(Clone, Copy)]
pub enum ScriptWork {
    Dequeue(u64),
    Snap,
    /// Submits the plan of the snapshot that was taken at this place in the script's order, from 1 on. None: of the worker's
    /// last.
    Submit(Option<u64>),
    Apply,
    /// Finishes by the plan of a snapshot, which is chosen as in `Submit`.
    Finish(Option<u64>),
    Nack,
}

/// What a worker does, or what is read.
#[derive(Clone, Copy)]
pub enum Call<'a> {
    /// The worker, and the namespace.
    Work(u64, &'a str, ScriptWork),
    Served,
    Planned,
    Phase(u64),
    /// Makes each call that takes no memory this often, about the namespace and the pool.
    Looks(u64, &'a str, &'a str),
}

fn namespace(text: &str) -> Option<&str> {
    match Name::read(NameKind::Namespace, text) {
        Some(_) => Some(text),
        None => None,
    }
}

/// The worker and the namespace of a step, and the rest of the text.
fn worker_in(text: &str) -> Option<(u64, &str, &str)> {
    let (worker, rest) = first_word(text);
    let (name, rest) = first_word(rest);
    Some((number(worker)?, namespace(name)?, rest))
}

/// The place of a snapshot, if one is given.
fn place(text: &str) -> Option<Option<u64>> {
    if text.is_empty() {
        return Some(None);
    }
    Some(Some(number(text)?))
}

/// A number, a namespace and a pool.
fn looks_in(text: &str) -> Option<(u64, &str, &str)> {
    let (times, namespace, pool) = worker_in(text)?;
    match Name::read(NameKind::Pool, pool) {
        Some(_) => Some((times, namespace, pool)),
        None => None,
    }
}

impl ScriptWork {
    fn read(word: &str, rest: &str) -> Option<ScriptWork> {
        match word {
            "dequeue" => Some(ScriptWork::Dequeue(number(rest)?)),
            "snap" if rest.is_empty() => Some(ScriptWork::Snap),
            "submit" => Some(ScriptWork::Submit(place(rest)?)),
            "apply" if rest.is_empty() => Some(ScriptWork::Apply),
            "finish" => Some(ScriptWork::Finish(place(rest)?)),
            "nack" if rest.is_empty() => Some(ScriptWork::Nack),
            _ => None,
        }
    }
}

impl<'a> Call<'a> {
    fn read(word: &str, rest: &'a str) -> Option<Call<'a>> {
        match word {
            "served" if rest.is_empty() => Some(Call::Served),
            "planned" if rest.is_empty() => Some(Call::Planned),
            "phase" => Some(Call::Phase(number(rest)?)),
            "looks" => {
                let (times, namespace, pool) = looks_in(rest)?;
                Some(Call::Looks(times, namespace, pool))
            }
            _ => {
                let (worker, namespace, rest) = worker_in(rest)?;
                Some(Call::Work(worker, namespace, ScriptWork::read(word, rest)?))
            }
        }
    }
}

impl<'a> Line<'a> {
    /// Reads a line of a script. None: it is no such line.
    pub fn read(text: &'a str) -> Option<Line<'a>> {
        if text.is_empty() || text.starts_with('#') {
            return Some(Line::Remark);
        }
        let (word, rest) = first_word(text);
        match word {
            "watch" if !rest.is_empty() => Some(Line::Watch(rest)),
            "token" if rest.is_empty() => Some(Line::Token(None)),
            "token" => Some(Line::Token(Some(rest.as_bytes()))),
            "GET" | "HEAD" | "OPTIONS" | "PATCH" | "POST" | "PUT" | "DELETE" if !rest.is_empty() =>
                {
                    let (target, body) = first_word(rest);
                    Some(Line::Request(word, target, body))
                }
            _ => Some(Line::Call(Call::read(word, rest)?)),
        }
    }
}
