//! Laws of the wire: where a request ends, when its connection closes, the bytes of the response, and conversations.

ghost use Rattle.ns_laws.specs.Wire.{
  HeaderNames,
  NoLengthNoBody,
  OneLengthCounts,
  TwoLengthsAreBad,
  CodingsAreRefused,
  BodiesAreSmall,
  MessagesAreSmall,
  FirstTokenCounts,
  ClosesByHead,
  CloseIsListed,
  CommasSeparate,
  LastRequests,
  RefusalsOnWire,
  RefusedStepsOnWire,
  FieldsOnWire,
  HeadFaultsOnWire,
  DoneOnWire,
  ResponsesInOrder,
  WholeIsHandled,
  RefusedHeadIsNotHandled,
  ConversationSplits,
};

/// Two names of headers are the same exactly if they are, character by character, but for upper and lower case of the
/// letters A to Z.
pub fn header_names()
    ensures { HeaderNames }
{}

/// A request with neither a `Content-Length` nor a `Transfer-Encoding` has no body.
pub fn no_length_no_body()
    ensures { NoLengthNoBody }
{}

/// A request with one `Content-Length`, and no `Transfer-Encoding`, has a body of that length, if the value is a number of
/// at most 1,048,576 in 1 to 20 digits. A greater number is refused as too large, and another value as a bad head.
pub fn one_length_counts()
    ensures { OneLengthCounts }
{}

/// A request with two `Content-Length` is refused as a bad head, even if they are the same.
pub fn two_lengths_are_bad()
    ensures { TwoLengthsAreBad }
{}

/// A `Transfer-Encoding` is refused: without a `Content-Length` since a length is needed, and beside one as a bad head.
pub fn codings_are_refused()
    ensures { CodingsAreRefused }
{}

/// No request has a body of more than 1,048,576 bytes.
pub fn bodies_are_small()
    ensures { BodiesAreSmall }
{}

/// A request has at most 16,384 bytes before its body, 64 headers, and a body of 1,048,576 bytes.
pub fn messages_are_small()
    ensures { MessagesAreSmall }
{}

/// The token is the value of the first `X-Nomad-Token`. Without one there is none.
pub fn first_token_counts()
    ensures { FirstTokenCounts }
{}

/// A request of HTTP/1.0 closes its connection. One of HTTP/1.1 closes it if a `Connection` lists `close`, and leaves it
/// open if none does.
pub fn closes_by_head()
    ensures { ClosesByHead }
{}

/// A `Connection` that has words between commas lists `close` exactly if one of the words does.
pub fn commas_separate()
    ensures { CommasSeparate }
{}

/// `close` is listed alone or between commas, with spaces or tabs around it, in upper or lower case. `closed` and
/// `keep close` do not list it.
pub fn close_is_listed()
    ensures { CloseIsListed }
{}

/// A request whose head is refused is the last one of its connection, and so is one of HTTP/1.0.
pub fn last_requests()
    ensures { LastRequests }
{}

/// Each refusal is sent with its status, its phrase, its text and the length of that, as a text without an index.
pub fn refusals_on_wire()
    ensures { RefusalsOnWire }
{}

/// A step that is refused is answered with a status of the client's errors, from 400 to 499.
pub fn refused_steps_on_wire()
    ensures { RefusedStepsOnWire }
{}

/// A bad field is sent with status 400 and with its name, as in `bad field: Priority`.
pub fn fields_on_wire()
    ensures { FieldsOnWire }
{}

/// A head that is refused is answered 400, 411 or 413, and the answer says that the connection closes.
pub fn head_faults_on_wire()
    ensures { HeadFaultsOnWire }
{}

/// What was done is answered 200, as JSON, with the index if there is one, and with the length of the body. Where the
/// connection closes, the answer says so.
pub fn done_on_wire()
    ensures { DoneOnWire }
{}

/// Responses are sent one after the other, in the order of their requests.
pub fn responses_in_order()
    ensures { ResponsesInOrder }
{}

/// A whole request is answered by the handler, in the state that the ones before it left.
pub fn whole_is_handled()
    ensures { WholeIsHandled }
{}

/// A request whose head is refused gets its refusal, and leaves the state.
pub fn refused_head_is_not_handled()
    ensures { RefusedHeadIsNotHandled }
{}

/// A conversation can be cut anywhere: its first exchanges lead to some state, and the rest goes on from there.
pub fn conversation_splits()
    ensures { ConversationSplits }
{}
