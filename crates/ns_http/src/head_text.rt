//! The text of a response's head.
ghost use Rattle.std.specs.Prelude.{◌≡◌, ◌≤◌, ◌+◌, ◌++◌, [], length, decimal};
ghost use Rattle.arrayvec.specs.ArrayString.{array_string_len};
ghost use Rattle.ns_types.specs.Wire.Responses.{index_line, close_line, response_head};
ghost use Rattle.ns_http.specs.Output.{response_front};

use crate::response::{Outgoing, content_type, phrase};
use arrayvec::ArrayString;
use itoa::Buffer;

/// The most bytes that the head of a response takes.
pub(crate) const MAX_RESPONSE_HEAD: usize = 256;

/// The head of a response. It stands in the value itself, where each piece is copied without a look at memory.
pub(crate) type HeadText = ArrayString<MAX_RESPONSE_HEAD>;

/// Inlined, so that a constant is copied without a call.
#[inline(always)]
fn put(head: &mut HeadText, text: &str)
    requires { array_string_len head.old + length text.now ≤ MAX_RESPONSE_HEAD }
    ensures value { head.new.bytes ≡ head.old.bytes ++ text.now }
    ensures len { array_string_len head.new ≡ array_string_len head.old + length text.now }
{
    head.push_str(text);
}

fn put_number(head: &mut HeadText, n: u64)
    requires { array_string_len head.old + 20 ≤ MAX_RESPONSE_HEAD }
    ensures value { head.new.bytes ≡ head.old.bytes ++ decimal n }
    ensures len { array_string_len head.new ≤ array_string_len head.old + 20 }
{
    let mut buffer = Buffer::new();
    put(head, buffer.format(n));
}

fn put_index(head: &mut HeadText, index: Option<u64>)
    requires { array_string_len head.old + 40 ≤ MAX_RESPONSE_HEAD }
    ensures value { head.new.bytes ≡ head.old.bytes ++ index_line index }
    ensures len { array_string_len head.new ≤ array_string_len head.old + 40 }
{
    if let Some(index) = index {
        put(head, "\r\nX-Nomad-Index: ");
        put_number(head, index);
    }
}

fn put_close(head: &mut HeadText, close: bool)
    requires { array_string_len head.old + 20 ≤ MAX_RESPONSE_HEAD }
    ensures value { head.new.bytes ≡ head.old.bytes ++ close_line close }
    ensures len { array_string_len head.new ≤ array_string_len head.old + 20 }
{
    if close {
        put(head, "\r\nConnection: close");
    }
}

/// Writes the head up to the media type. For status 200 it is one piece.
fn put_front(head: &mut HeadText, status: u16)
    requires { array_string_len head.old + 128 ≤ MAX_RESPONSE_HEAD }
    ensures value { head.new.bytes ≡ head.old.bytes ++ response_front status }
    ensures len { array_string_len head.new ≤ array_string_len head.old + 128 }
{
    if status == 200 {
        put(head, "HTTP/1.1 200 OK\r\nContent-Type: application/json");
        return;
    }
    put(head, "HTTP/1.1 ");
    put_number(head, u64::from(status));
    put(head, " ");
    put(head, phrase(status));
    put(head, "\r\nContent-Type: ");
    put(head, content_type(status));
}

/// Writes the head of the response into an empty text.
pub(crate) fn put_head(head: &mut HeadText, reply: &Outgoing<'_>, close: bool)
    requires { head.old.bytes ≡ [] }
    ensures { head.new.bytes
        ≡ response_head reply.now.status reply.now.index (length reply.now.body.now) close }
{
    put_front(head, reply.status);
    put_index(head, reply.index);
    put(head, "\r\nContent-Length: ");
    put_number(head, reply.body.len() as u64);
    put_close(head, close);
    put(head, "\r\n\r\n");
}
