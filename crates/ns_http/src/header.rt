//! Reads what the engine needs of a head's fields.
ghost use Rattle.std.specs.Prelude.{◌≡◌, ℕ, List, [], ◌∷◌, ◌++◌, All, length, map, reverse};
ghost use Rattle.std.specs.Option.{option_copied};
ghost use Rattle.httparse.specs.Grammar.{skip_ows, trim_ows};
ghost use Rattle.httparse.specs.Spans.{IsHeaderWithin, header_bytes};
ghost use Rattle.ns_types.specs.Wire.Http.{Header, eq_ignore_case, first_value, body_len, lists_close, asks_close, token_of, is_length, length_of};
ghost use Rattle.ns_http.specs.Values.{IsSummaryOf, framing_of};

use httparse::is_space_or_tab;
use httparse::spans::HeaderSpan;
use ns_types::reply::HeadFault;

/// The most bytes that a body may have.
pub(crate) const MAX_BODY_LEN: usize = 1_048_576;

/// The values of the headers of one name.
#[derive(Clone, Copy)]
pub(crate) enum HeaderValues<'a> {
    Absent,
    One(&'a [u8]),
    /// The first of several.
    Several(&'a [u8]),
}

impl<'a> HeaderValues<'a> {
    ghost use Rattle.ns_http.specs.Values.{IsSummaryOf};

    /// The values with this one behind them.
    fn and(self, value: &'a [u8]) -> HeaderValues<'a>
        ensures { (values : List (List ℕ)) → IsSummaryOf self.entry values
            → IsSummaryOf result (values ++ value.now ∷ []) }
    {
        match self {
            HeaderValues::Absent => HeaderValues::One(value),
            HeaderValues::One(first) => HeaderValues::Several(first),
            HeaderValues::Several(first) => HeaderValues::Several(first),
        }
    }

    /// The first value.
    fn first(self) -> Option<&'a [u8]>
        ensures { (values : List (List ℕ)) → IsSummaryOf self.entry values
            → option_copied result ≡ first_value values }
    {
        match self {
            HeaderValues::Absent => None,
            HeaderValues::One(first) => Some(first),
            HeaderValues::Several(first) => Some(first),
        }
    }
}

/// Whether the texts are equal without regard to case. Most are equal as they stand, or differ in length.
fn eq_ignore_case(a: &[u8], b: &[u8]) -> bool
    ensures { result ≡ eq_ignore_case a.now b.now }
{
    a == b || a.eq_ignore_ascii_case(b)
}

fn trim_start(mut s: &[u8]) -> &[u8]
    ensures { result.now ≡ skip_ows s.now }
{
    while let [first, rest @ ..] = s
        && is_space_or_tab(*first)
    {
        s = rest;
    }
    s
}

fn trim_end(mut s: &[u8]) -> &[u8]
    ensures { result.now ≡ reverse (skip_ows (reverse s.now)) }
{
    while let [rest @ .., last] = s
        && is_space_or_tab(*last)
    {
        s = rest;
    }
    s
}

fn trim_ows(s: &[u8]) -> &[u8]
    ensures { result.now ≡ trim_ows s.now }
{
    trim_end(trim_start(s))
}

fn lists_close(value: &[u8]) -> bool
    ensures { result ≡ lists_close value.now }
{
    value
        .split(|b| *b == b',')
        .any(|piece| eq_ignore_case(trim_ows(piece), b"close"))
}

/// Whether these are one to twenty digits.
fn is_length(digits: &[u8]) -> bool
    ensures { result ≡ is_length digits.now }
{
    !digits.is_empty() && digits.len() <= 20 && digits.iter().all(|b| b.is_ascii_digit())
}

/// The number that the value writes. The value is refused if it is not a number, or more than a
/// body may have.
fn parse_len(digits: &[u8]) -> Result<usize, HeadFault>
    ensures { result ≡ length_of digits.now }
{
    if !is_length(digits) {
        return Err(HeadFault::BadHead);
    }
    let mut len: usize = 0;
    for b in digits {
        len = len * 10 + usize::from(*b - b'0');
        if len > MAX_BODY_LEN {
            return Err(HeadFault::TooLarge);
        }
    }
    Ok(len)
}

/// How long the body is, by the values of `Content-Length` and of `Transfer-Encoding`.
fn framing(lengths: HeaderValues<'_>, codings: HeaderValues<'_>) -> Result<usize, HeadFault>
    ensures { result ≡ framing_of lengths.entry codings.entry }
{
    match codings {
        HeaderValues::Absent => match lengths {
            HeaderValues::Absent => Ok(0),
            HeaderValues::One(digits) => parse_len(digits),
            HeaderValues::Several(_) => Err(HeadFault::BadHead),
        },
        HeaderValues::One(_) | HeaderValues::Several(_) => match lengths {
            HeaderValues::Absent => Err(HeadFault::NeedLength),
            HeaderValues::One(_) | HeaderValues::Several(_) => Err(HeadFault::BadHead),
        },
    }
}

/// What the engine needs of the fields of a head.
#[derive(Clone, Copy)]
pub(crate) struct Fields<'a> {
    lengths: HeaderValues<'a>,
    codings: HeaderValues<'a>,
    tokens: HeaderValues<'a>,
    /// Whether a `Connection` header lists `close`.
    closes: bool,
}

impl<'a> Fields<'a> {
    ghost use Rattle.ns_http.specs.Fields.{AreFieldsOf};

    /// Adds the field behind those that came before.
    fn add(&mut self, name: &[u8], value: &'a [u8])
        ensures { (headers : List Header) → AreFieldsOf self.old headers
            → AreFieldsOf self.new (headers ++ (name.now, value.now) ∷ []) }
    {
        if eq_ignore_case(name, b"Content-Length") {
            self.lengths = self.lengths.and(value);
        } else if eq_ignore_case(name, b"Transfer-Encoding") {
            self.codings = self.codings.and(value);
        } else if eq_ignore_case(name, b"X-Nomad-Token") {
            self.tokens = self.tokens.and(value);
        } else if eq_ignore_case(name, b"Connection") {
            self.closes |= lists_close(value);
        }
    }

    /// Reads the fields of a head.
    pub(crate) fn read(buf: &'a [u8], headers: &[HeaderSpan]) -> Fields<'a>
        requires { All (IsHeaderWithin (length buf.now)) headers.now }
        ensures { AreFieldsOf result (map (header_bytes buf.now) headers.now) }
    {
        let mut fields = Fields {
            lengths: HeaderValues::Absent,
            codings: HeaderValues::Absent,
            tokens: HeaderValues::Absent,
            closes: false,
        };
        for header in headers {
            fields.add(header.name.of(buf), header.value.of(buf));
        }
        fields
    }

    /// How long the body is, or why the head is refused.
    pub(crate) fn body_len(&self) -> Result<usize, HeadFault>
        ensures { (headers : List Header) → AreFieldsOf self.now headers
            → result ≡ body_len headers }
    {
        framing(self.lengths, self.codings)
    }

    /// Whether the connection closes after the answer.
    pub(crate) fn asks_close(&self, minor: u8) -> bool
        ensures { (headers : List Header) → AreFieldsOf self.now headers
            → result ≡ asks_close minor headers }
    {
        minor == 0 || self.closes
    }

    /// The first value of `X-Nomad-Token`.
    pub(crate) fn token(&self) -> Option<&'a [u8]>
        ensures { (headers : List Header) → AreFieldsOf self.now headers
            → option_copied result ≡ token_of headers }
    {
        self.tokens.first()
    }
}
