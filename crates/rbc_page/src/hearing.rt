//! What is heard of the bytes that a client sends.

ghost use Rattle.std.specs.Prelude.{◌≡◌, ◌==◌, All, length, map, option_copied, take};
ghost use Rattle.std.specs.List.{before_first, after_first};
ghost use Rattle.httparse.specs.Spans.{IsHeaderWithin, IsRequestWithin, IsWithin, header_bytes, span_bytes};
ghost use Rattle.rbc_page.specs.Hearing.{HearsHeads, IsSaid, RefusesLong, after_in, before, behind, by_page, by_query, from_in, has_value, head_only, heard_of, is_alike, is_closing, known_by, known_in, may_stay, number_behind, page_of, query_of, said_by, value_in, waited};

use crate::{Asked, Resource, Status};
use httparse::Error;
use httparse::spans::{EMPTY_HEADER_SPAN, HeaderSpan, RequestSpans, parse_request};
use rbc_words::{around, number};

/// How many fields the head of a request may have.
pub const MOST_FIELDS: usize = 64;

/// What is heard.
#[derive(Clone, Copy)]
pub enum Heard {
    /// A request.
    Request(Asked),
    /// Something that is refused.
    Refused(Status),
    /// A head that has not ended.
    More,
}

/// Whether two texts have the same letters, great or small.
fn is_alike(text: &[u8], other: &[u8]) -> bool
    ensures { result ≡ is_alike text.now other.now }
{
    text.eq_ignore_ascii_case(other)
}

/// What stands behind an opening of a text.
fn behind<'t>(opening: &[u8], text: &'t [u8]) -> Option<&'t [u8]>
    ensures { option_copied result ≡ behind opening.now text.now }
{
    text.strip_prefix(opening)
}

/// What stands before an ending of a text.
fn before<'t>(ending: &[u8], text: &'t [u8]) -> Option<&'t [u8]>
    ensures { option_copied result ≡ before ending.now text.now }
{
    text.strip_suffix(ending)
}

/// The value of the first field with this name.
fn value_of<'b>(bytes: &'b [u8], fields: &[HeaderSpan], name: &[u8]) -> Option<&'b [u8]>
    requires { All (IsHeaderWithin (length bytes.now)) fields.now }
    ensures { option_copied result ≡ value_in name.now (map (header_bytes bytes.now) fields.now) }
{
    for field in fields {
        if is_alike(field.name.of(bytes), name) {
            return Some(field.value.of(bytes));
        }
    }
    None
}

/// Whether there is one.
fn has_value(bytes: &[u8], fields: &[HeaderSpan], name: &[u8]) -> bool
    requires { All (IsHeaderWithin (length bytes.now)) fields.now }
    ensures { result ≡ has_value name.now (map (header_bytes bytes.now) fields.now) }
{
    match value_of(bytes, fields, name) {
        Some(_) => true,
        None => false,
    }
}

/// The version in a tag of a centre that has begun so.
fn known_in(start: &[u8], tag: &[u8]) -> Option<u64>
    ensures { result ≡ known_in start.now tag.now }
{
    let text = behind(b"\"", tag)?;
    let rest = behind(start, text)?;
    let number_and_end = behind(b"-", rest)?;
    number(before(b"\"", number_and_end)?)
}

/// The version that the client has, if its tag is one of this centre.
fn known_by(start: &[u8], tag: Option<&[u8]>) -> Option<u64>
    ensures { result ≡ known_by start.now (option_copied tag.entry) }
{
    known_in(start, tag?)
}

/// Whether a connection is to be closed.
fn is_closing(value: Option<&[u8]>) -> bool
    ensures { result ≡ is_closing (option_copied value.entry) }
{
    match value {
        Some(value) => is_alike(value, b"close"),
        None => false,
    }
}

/// Whether the client may ask again.
fn may_stay(bytes: &[u8], fields: &[HeaderSpan], minor: u8, is_alone: bool) -> bool
    requires { All (IsHeaderWithin (length bytes.now)) fields.now }
    ensures { result ≡ may_stay minor (map (header_bytes bytes.now) fields.now) is_alone }
{
    let is_closing = is_closing(value_of(bytes, fields, b"connection"));
    let has_size = has_value(bytes, fields, b"content-length");
    let has_parts = has_value(bytes, fields, b"transfer-encoding");
    minor == 1 && is_alone && !is_closing && !has_size && !has_parts
}

/// Whether only the head is asked for, by a method that there is.
fn head_only(method: &[u8]) -> Option<bool>
    ensures { result ≡ head_only method.now }
{
    match method {
        b"GET" => Some(false),
        b"HEAD" => Some(true),
        _ => None,
    }
}

/// What a path names.
fn page_of(path: &[u8]) -> Option<Resource>
    ensures { result ≡ page_of path.now }
{
    if path == b"/".as_slice() {
        Some(Resource::Viewer)
    } else if path == b"/track".as_slice() {
        Some(Resource::Track)
    } else if path == b"/scene".as_slice() {
        Some(Resource::Scene)
    } else if path == b"/history".as_slice() {
        Some(Resource::History)
    } else if path == b"/metrics".as_slice() {
        Some(Resource::Metrics)
    } else if path == b"/health".as_slice() {
        Some(Resource::Health)
    } else {
        None
    }
}

/// The version that is waited for, where a query names one.
fn waited(version: Option<u64>) -> Option<Option<u64>>
    ensures { result ≡ waited version }
{
    match version {
        Some(version) => Some(Some(version)),
        None => None,
    }
}

/// The number behind a word in a query.
fn number_behind(word: &[u8], query: &[u8]) -> Option<u64>
    ensures { result ≡ number_behind word.now query.now }
{
    number(behind(word, query)?)
}

/// The version that a query waits for, if any; None, where it is another query.
fn after_in(query: &[u8]) -> Option<Option<u64>>
    ensures { result ≡ after_in query.now }
{
    if query.is_empty() {
        Some(None)
    } else {
        waited(number_behind(b"after=", query))
    }
}

/// The place from which on a query asks for entries; None, where it is another query.
fn from_in(query: &[u8]) -> Option<u64>
    ensures { result ≡ from_in query.now }
{
    if query.is_empty() {
        Some(0)
    } else {
        number_behind(b"from=", query)
    }
}

/// What a query of this page says: a scene may be waited for, and a history be asked for from a place on.
#[tactic(auto, unfolding(crate::specs::Hearing::query_of))]
fn query_of(page: Resource, query: &[u8]) -> Option<(Option<u64>, u64)>
    ensures { result ≡ query_of page query.now }
{
    match page {
        Resource::Scene => Some((after_in(query)?, 0)),
        Resource::History => Some((None, from_in(query)?)),
        Resource::Viewer | Resource::Track | Resource::Metrics | Resource::Health => {
            Some((None, 0))
        }
    }
}

/// What is said of a page that is asked for so.
fn by_query(
    page: Resource,
    known: Option<u64>,
    is_head: bool,
    stays: bool,
    query: &[u8],
) -> Result<Asked, Status>
    ensures { result ≡ by_query page known is_head stays (query_of page query.now) }
{
    match query_of(page, query) {
        Some((after, from)) => Ok(Asked {
            page,
            after,
            from,
            known,
            is_head,
            stays,
        }),
        None => Err(Status::BadRequest),
    }
}

/// What is said by a target.
fn by_target(target: &[u8], known: Option<u64>, is_head: bool, stays: bool) -> Result<Asked, Status>
    ensures { result ≡ by_page (after_first (λ byte. byte == 63) target.now) known is_head stays
        (page_of (before_first (λ byte. byte == 63) target.now)) }
{
    let (path, query) = around(target, b'?');
    match page_of(path) {
        Some(page) => by_query(page, known, is_head, stays, query),
        None => Err(Status::NotFound),
    }
}

/// What is said by a head.
///
/// # Errors
///
/// The first of these: `MethodNotAllowed`, `NotFound`, and `BadRequest` where a scene is asked for by a query that names no version,
/// or a history by one that names no place.
#[tactic(auto, unfolding(crate::specs::Hearing::said_by))]
fn said_by(
    start: &[u8],
    bytes: &[u8],
    spans: &RequestSpans,
    fields: &[HeaderSpan],
    is_alone: bool,
) -> Result<Asked, Status>
    requires method { IsWithin (length bytes.now) spans.now.method }
    requires target { IsWithin (length bytes.now) spans.now.path }
    requires fields { All (IsHeaderWithin (length bytes.now)) fields.now }
    ensures { result ≡ said_by start.now (span_bytes bytes.now spans.now.method) (span_bytes bytes.now spans.now.path)
        spans.now.version (map (header_bytes bytes.now) fields.now) is_alone }
{
    let known = known_by(start, value_of(bytes, fields, b"if-none-match"));
    let stays = may_stay(bytes, fields, spans.version, is_alone);
    match head_only(spans.method.of(bytes)) {
        Some(is_head) => by_target(spans.path.of(bytes), known, is_head, stays),
        None => Err(Status::MethodNotAllowed),
    }
}

/// What is heard of a head, or why it is refused.
fn heard_of(said: Result<Asked, Status>) -> Heard
    ensures { result ≡ heard_of said }
{
    match said {
        Ok(asked) => Heard::Request(asked),
        Err(status) => Heard::Refused(status),
    }
}

/// What is heard of the head that was parsed so.
#[tactic(auto, using(crate::proofs::HearingLemmas::fields_within))]
fn hear_head(start: &[u8], bytes: &[u8], spans: &RequestSpans, fields: &[HeaderSpan]) -> Heard
    requires { IsRequestWithin bytes.now fields.now spans.now }
    ensures { result ≡ heard_of (said_by start.now (span_bytes bytes.now spans.now.method) (span_bytes bytes.now spans.now.path)
        spans.now.version (map (header_bytes bytes.now) (take spans.now.headers fields.now)) (spans.now.len == length bytes.now)) }
{
    let is_alone = spans.len == bytes.len();
    heard_of(said_by(start, bytes, spans, &fields[..spans.headers], is_alone))
}

/// What is heard of bytes, by a centre that has begun so: the request of the head at their front, or why that is refused. What
/// is no head is a `BadRequest`, and one with more than 64 fields `TooLong`.
pub fn hear(start: &[u8], bytes: &[u8]) -> Heard
    ensures heads { HearsHeads start.now 64 bytes.now result }
    ensures long { RefusesLong 64 bytes.now result }
    ensures said { IsSaid start.now bytes.now result }
{
    let mut fields = [EMPTY_HEADER_SPAN; MOST_FIELDS];
    match parse_request(bytes, &mut fields) {
        Ok(httparse::Status::Complete(spans)) => hear_head(start, bytes, &spans, &fields),
        Ok(httparse::Status::Partial) => Heard::More,
        Err(Error::TooManyHeaders) => Heard::Refused(Status::TooLong),
        Err(_) => Heard::Refused(Status::BadRequest),
    }
}
