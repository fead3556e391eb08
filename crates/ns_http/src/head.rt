//! One request at the front of what was read.
ghost use Rattle.std.specs.Prelude.{◌+◌, ◌<◌};
ghost use Rattle.ns_http.specs.Head.{Finds};
ghost use Rattle.ns_http.specs.HeadStands.{HeadStands};

use crate::header::Fields;
use httparse::spans::{HeaderSpan, RequestSpans, parse_request};
use httparse::{Error, Status};
use ns_types::reply::HeadFault;

/// The most bytes that a head may have.
pub(crate) const MAX_HEAD_LEN: usize = 16_384;

/// The most headers that a head may have.
pub(crate) const MAX_HEADERS: usize = 64;

/// What a handler sees of a request. It borrows the buffer.
#[derive(Clone, Copy)]
pub struct Request<'a> {
    /// The method as it was written.
    pub method: &'a [u8],
    /// The target as it was written: a path and a query.
    pub target: &'a str,
    /// The first `X-Nomad-Token`, without spaces and tabs at its ends.
    pub token: Option<&'a [u8]>,
    /// As many bytes as `Content-Length` says.
    pub body: &'a [u8],
}

/// What stands at the front of the bytes.
#[derive(Clone, Copy)]
pub(crate) enum Front<'a> {
    Whole {
        request: Request<'a>,
        len: usize,
        close: bool,
    },
    Refused(HeadFault),
    /// No request is whole yet, and none will be before there are this many bytes.
    Partial(usize),
}

/// The request whose head was found in the text at the front of the bytes, if its body is there.
fn with_body<'a>(
    bytes: &'a [u8],
    text: &'a [u8],
    headers: &[HeaderSpan],
    head: RequestSpans,
) -> Front<'a>
    requires { HeadStands bytes.now text.now headers.now head }
    ensures { Finds bytes.now result }
{
    let fields = Fields::read(text, headers);
    match fields.body_len() {
        Err(fault) => Front::Refused(fault),
        Ok(len) if bytes.len() - head.len < len => Front::Partial(head.len + len),
        Ok(len) => {
            let request = Request {
                method: head.method.of(text),
                // A head's target is UTF-8 text.
                target: unsafe { str::from_utf8_unchecked(head.path.of(text)) },
                token: fields.token(),
                body: &bytes[head.len..head.len + len],
            };
            Front::Whole {
                request,
                len: head.len + len,
                close: fields.asks_close(head.version),
            }
        }
    }
}

/// Reads what stands at the front of the bytes. The places of its headers are written to `headers`.
pub(crate) fn read_front<'a>(bytes: &'a [u8], headers: &mut [HeaderSpan; MAX_HEADERS]) -> Front<'a>
    ensures { Finds bytes.now result }
{
    let text = &bytes[..bytes.len().min(MAX_HEAD_LEN)];
    match parse_request(text, headers) {
        Ok(Status::Complete(head)) => with_body(bytes, text, &headers[..head.headers], head),
        Ok(Status::Partial) if text.len() == MAX_HEAD_LEN => Front::Refused(HeadFault::TooLarge),
        Ok(Status::Partial) => Front::Partial(0),
        Err(error) => Front::Refused(match error {
            Error::TooManyHeaders => HeadFault::TooLarge,
            _ => HeadFault::BadHead,
        }),
    }
}
