//! The parts of a target.

ghost use Rattle.std.specs.Prelude.{◌≡◌, ◌&&◌, IfOk, Some, [], bytes_eq, codes, unwrap_or};
ghost use Rattle.std.specs.Option.{option_or};
ghost use Rattle.ns_request.specs.Judging.{named_in, part_of, second_with};
ghost use Rattle.ns_request.specs.Parts.{segment_at};
ghost use Rattle.ns_request.specs.Targets.{is_pool, path_in, query_in};

use crate::endpoint::Endpoint;
use crate::part::PathPart;
use ns_types::name::NameKind;
use ns_types::text::Text;
use percent_encoding::{DecodeError, percent_decode};
use std::alloc::{AllocError, Global};

/// The path and the query of a target, which is split at its first question mark.
pub fn split_target(target: &str) -> (&str, &str)
    ensures path { result.0.now ≡ path_in target.now }
    ensures query { result.1.now ≡ query_in target.now }
{
    match target.split_once('?') {
        Some((path, query)) => (path, query),
        None => (target, ""),
    }
}

/// The segment of a path at that place, or an empty one. The first segment, at place 0, stands before the first slash.
pub fn segment(path: &str, place: usize) -> &[u8]
    ensures { result.now ≡ segment_at place path.now }
{
    match path.as_bytes().split(|b| *b == b'/').nth(place) {
        Some(segment) => segment,
        None => b"",
    }
}

/// The decoded segment, if it follows the rule of the part. Want of memory is the only error.
fn part_of(alloc: Global, part: PathPart, segment: &[u8]) -> Result<Option<Text>, AllocError>
    ensures { IfOk result (λ text. text ≡ part_of part segment.now) }
{
    match percent_decode(segment).decode_utf8(alloc) {
        Ok(text) => {
            if !part.is_good(text.as_str()) {
                return Ok(None);
            }
            Ok(Some(Text::from_str(alloc, text.as_str())?))
        }
        Err(DecodeError::Utf8(_)) => Ok(None),
        Err(DecodeError::OutOfMemory) => Err(AllocError),
    }
}

/// Whether the part names the pool `all`.
fn is_every_pool(part: PathPart, text: &str) -> bool
    ensures { result ≡ (is_pool part && bytes_eq text.now (codes "all")) }
{
    matches!(part, PathPart::Name(NameKind::Pool)) && text == "all"
}

/// Keeps the text as the first or the second one, if that is still missing.
fn keep(first: &mut Option<Text>, second: &mut Option<Text>, text: Text)
    ensures first { first.new ≡ option_or first.old (Some text) }
    ensures second { second.new ≡ second_with first.old second.old text }
{
    if first.is_none() {
        *first = Some(text);
    } else if second.is_none() {
        *second = Some(text);
    }
}

/// The text, or the empty one where there is none.
fn text_or_empty(alloc: Global, text: Option<Text>) -> Text
    ensures { result ≡ unwrap_or text [] }
{
    match text {
        Some(text) => text,
        None => Text::from_string(String::new(alloc)),
    }
}

/// The texts of a path's parts.
#[derive(Drop)]
pub struct PathNames {
    /// The text of the first part, empty where there is none.
    pub first: Text,
    /// The text of the second part, empty where there is none.
    pub second: Text,
    /// Whether a part names the pool `all`, which is not a pool.
    pub every_pool: bool,
}

/// The texts of the path's parts, or none if one of them breaks its rule. Each is decoded once. Want of memory is the only
/// error.
pub fn named_in(
    alloc: Global,
    endpoint: Endpoint,
    path: &str,
) -> Result<Option<PathNames>, AllocError>
    ensures { IfOk result (λ named. named ≡ named_in endpoint path.now) }
{
    let mut first = None;
    let mut second = None;
    let mut every_pool = false;
    for placed in endpoint.parts() {
        let Some(text) = part_of(alloc, placed.part, segment(path, placed.place))? else {
            return Ok(None);
        };
        every_pool |= is_every_pool(placed.part, text.as_str());
        keep(&mut first, &mut second, text);
    }
    Ok(Some(PathNames {
        first: text_or_empty(alloc, first),
        second: text_or_empty(alloc, second),
        every_pool,
    }))
}
