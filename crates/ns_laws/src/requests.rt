//! Laws of requests as bytes: how long their heads may be, and what is read of them.

ghost use Rattle.ns_laws.specs.Requests.{
  HeadLimits,
  LongHeadsAreRefused,
  AreReadSo,
  BytesAreTheRequests,
  TakenAreMessages,
  RefusedHeadIsLeft,
  LastOneCloses,
  ClosedByTheLast,
  CleanEndLeavesNothing,
  PartialEndLeavesAPart,
};

/// A well-formed head is taken exactly if it has at most 16,384 bytes and at most 64 headers.
pub fn head_limits()
    ensures { HeadLimits }
{}

/// A head that has not ended after 16,384 bytes, and still might, is refused as too large.
pub fn long_heads_are_refused()
    ensures { LongHeadsAreRefused }
{}

/// A `GET` of `/v1/jobs` whose `x-nomad-token` has spaces around `root` is read as such a request with the token `root` and
/// without a body. A `PUT` with `Content-Length: 2` and `Connection: Close` has the next two bytes as its body, and what
/// follows them is not read.
pub fn requests_are_read_so()
    ensures { AreReadSo }
{}

/// The bytes that are read are those of the whole requests, in order, and then the rest.
pub fn bytes_are_the_requests()
    ensures { BytesAreTheRequests }
{}

/// Each whole request that is read has a head within the limits, and a body as long as its head says.
pub fn taken_are_messages()
    ensures { TakenAreMessages }
{}

/// If a head is refused, the rest begins with it.
pub fn refused_head_is_left()
    ensures { RefusedHeadIsLeft }
{}

/// After a request that closes its connection, or whose head is refused, none is read, and the connection is closed.
pub fn last_one_closes()
    ensures { LastOneCloses }
{}

/// If the connection is closed, its last request closes it, or has a head that is refused.
pub fn closed_by_the_last()
    ensures { ClosedByTheLast }
{}

/// If the bytes end with a whole request, they are those of the requests, and nothing else.
pub fn clean_end_leaves_nothing()
    ensures { CleanEndLeavesNothing }
{}

/// If the bytes end inside a request, a part of that is left, which is not empty.
pub fn partial_end_leaves_a_part()
    ensures { PartialEndLeavesAPart }
{}
