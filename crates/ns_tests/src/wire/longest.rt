// The longest bodies: registrations and policies that are filled with blanks up to the limit, and to one byte more.
use crate::wire::repeated::repeated;
use ns_documents::read_policy;
use ns_http::{Answer, Counted, Request, serve};
use ns_json::read_registration;
use ns_types::refusal::Refusal;
use ns_types::reply::Response;
use std::alloc::{AllocError, Global};
use std::test::Fail;

/// The most bytes that a body may have.
const MOST: usize = 1_048_576;

/// Reads the body of each request as a registration, or as a policy.
#[derive(Clone, Copy)]
struct Reading {
    alloc: Global,
    is_policy: bool,
}

impl Reading {
    fn fault_in(self, body: &[u8]) -> Option<Refusal> {
        if self.is_policy {
            fault_of(read_policy(self.alloc, body))
        } else {
            fault_of(read_registration(self.alloc, body))
        }
    }
}

fn fault_of<T: Drop>(read: Result<T, Refusal>) -> Option<Refusal> {
    match read {
        Ok(document) => {
            drop(document);
            None
        }
        Err(refusal) => Some(refusal),
    }
}

impl Answer for Reading {
    ghost answers = { λ _ _ _ _. Unit {0} };

    type A = Global;

    fn answer(&mut self, request: &Request<'_>) -> Response {
        match self.fault_in(request.body) {
            None => Response::Done(None, String::new(self.alloc)),
            Some(refusal) => Response::Refused(refusal),
        }
    }
}

/// A request whose body is this document after blanks, `len` bytes in all.
fn request_of(alloc: Global, document: &str, len: usize) -> Result<String, AllocError> {
    let head = format!(in alloc; "POST / HTTP/1.0\r\nContent-Length: {len}\r\n\r\n")?;
    repeated(
        alloc,
        head.as_str(),
        " ",
        len.saturating_sub(document.len()),
        document,
    )
}

fn answered(mut reading: Reading, input: &[u8]) -> Result<Vec<u8>, AllocError> {
    let mut reader = Counted::new(input);
    let mut writer = Counted::new(Vec::new(reading.alloc));
    match serve(reading.alloc, &mut reader, &mut writer, &mut reading) {
        Ok(_) => Ok(writer.into_inner()),
        Err(_) => Ok(Vec::new(reading.alloc)),
    }
}

/// Whether a body of this document, filled with blanks to `len` bytes, gets this reply.
fn is_answered(
    reading: Reading,
    document: &str,
    len: usize,
    reply: &[u8],
) -> Result<bool, AllocError> {
    let input = request_of(reading.alloc, document, len)?;
    let bytes = answered(reading, input.as_bytes())?;
    Ok(bytes.as_slice() == reply)
}

const DONE: &[u8] =
    b"HTTP/1.1 200 OK\r\nContent-Type: application/json\r\nContent-Length: 0\r\nConnection: close\r\n\r\n";

const TOO_LARGE: &[u8] =
    b"HTTP/1.1 413 Content Too Large\r\nContent-Type: text/plain; charset=utf-8\r\nContent-Length: 9\r\nConnection: close\r\n\r\ntoo large";

const BAD_RULES: &[u8] =
    b"HTTP/1.1 400 Bad Request\r\nContent-Type: text/plain; charset=utf-8\r\nContent-Length: 16\r\nConnection: close\r\n\r\nbad field: Rules";

const WEB: &str =
    "{\"Job\":{\"ID\":\"web\",\"TaskGroups\":[{\"Name\":\"g\",\"Tasks\":[{\"Name\":\"t\"}]}]}}";

#[test]
fn registration_of_the_longest_body(rt: HostRuntime) -> Result<(), Fail> {
    let reading = Reading {
        alloc: rt.alloc(),
        is_policy: false,
    };
    assert!(rt; is_answered(reading, WEB, MOST, DONE)?);
    assert!(rt; is_answered(reading, WEB, MOST + 1, TOO_LARGE)?);
    Ok(())
}

/// A policy of one rule, whose text is filled to `len` bytes by a comment.
fn policy(alloc: Global, len: usize) -> Result<String, AllocError> {
    let rule = "namespace \\\"a\\\" { policy = \\\"read\\\" } #";
    // Each of the four quotes of the text is written as two bytes.
    let rule_len = rule.len() - 4;
    let before = format!(in alloc; "{{\"Rules\":\"{rule}")?;
    repeated(
        alloc,
        before.as_str(),
        "x",
        len.saturating_sub(rule_len),
        "\"}",
    )
}

/// Whether a policy with `rules` bytes of rules, in a body of at least `len` bytes, gets this reply.
fn is_policy_answered(
    reading: Reading,
    rules: usize,
    len: usize,
    reply: &[u8],
) -> Result<bool, AllocError> {
    let document = policy(reading.alloc, rules)?;
    is_answered(reading, document.as_str(), len.max(document.len()), reply)
}

#[test]
fn policy_of_the_longest_rules(rt: HostRuntime) -> Result<(), Fail> {
    let reading = Reading {
        alloc: rt.alloc(),
        is_policy: true,
    };
    assert!(rt; is_policy_answered(reading, 65_536, MOST, DONE)?);
    assert!(rt; is_policy_answered(reading, 65_536, MOST + 1, TOO_LARGE)?);
    assert!(rt; is_policy_answered(reading, 65_537, 0, BAD_RULES)?);
    Ok(())
}
