//! The head of an answer.

ghost use Rattle.std.specs.Prelude.{◌≡◌, IfOk};
ghost use Rattle.rbc_page.specs.Heads.{kind_word, status_word, stay_word, with_end, with_head, with_kind, with_methods, with_size, with_status, with_version};

use crate::fields::{put, put_field, put_number, put_tag};
use rbc_model::Memory;

/// How a request is answered.
#[derive(Clone, Copy)]
pub enum Status {
    /// 200: with what is asked for.
    Content,
    /// 204: what is waited for has not come.
    NoContent,
    /// 304: the client has what is asked for.
    NotModified,
    /// 400: it is no request.
    BadRequest,
    /// 404: the path names nothing.
    NotFound,
    /// 405: the method is none of GET and HEAD.
    MethodNotAllowed,
    /// 431: its head is too long.
    TooLong,
    /// 503: there is no room for an answer.
    Unavailable,
}

/// What a body is.
#[derive(Clone, Copy)]
pub enum Kind {
    /// A page.
    Html,
    /// Lines of text.
    Plain,
    /// What was counted, as Prometheus reads it.
    Numbers,
}

/// What the head of an answer tells.
#[derive(Clone, Copy)]
pub struct Head {
    /// How the request is answered.
    pub status: Status,
    /// What the body is.
    pub kind: Kind,
    /// How many bytes it has, where there is one.
    pub size: Option<u64>,
    /// The version that is shown, where it has one.
    pub tag: Option<u64>,
    /// Whether the client may ask again over its connection.
    pub stays: bool,
}

impl Status {
    /// Its number and its words.
    fn word(self) -> &'static [u8]
        ensures { result.now ≡ status_word self }
    {
        match self {
            Status::Content => b"200 OK",
            Status::NoContent => b"204 No Content",
            Status::NotModified => b"304 Not Modified",
            Status::BadRequest => b"400 Bad Request",
            Status::NotFound => b"404 Not Found",
            Status::MethodNotAllowed => b"405 Method Not Allowed",
            Status::TooLong => b"431 Request Header Fields Too Large",
            Status::Unavailable => b"503 Service Unavailable",
        }
    }
}

impl Kind {
    /// Its name.
    fn word(self) -> &'static [u8]
        ensures { result.now ≡ kind_word self }
    {
        match self {
            Kind::Html => b"text/html; charset=utf-8",
            Kind::Plain => b"text/plain; charset=utf-8",
            Kind::Numbers => b"text/plain; version=0.0.4; charset=utf-8",
        }
    }
}

/// How it is said whether a client may ask again.
fn stay_word(stays: bool) -> &'static [u8]
    ensures { result.now ≡ stay_word stays }
{
    if stays { b"keep-alive" } else { b"close" }
}

/// Writes the line of a status.
#[tactic(auto, unfolding(crate::specs::Heads::with_status))]
fn put_status(text: &mut Vec<u8>, status: Status) -> Result<(), Memory>
    ensures { IfOk result (λ done. text.new.items ≡ with_status text.old.items status) }
{
    put(text, b"HTTP/1.1 ")?;
    put(text, status.word())?;
    put(text, b"\r\n")?;
    Ok(())
}

/// Writes which methods there are, where another one was asked for.
#[tactic(auto, unfolding(crate::specs::Heads::with_methods))]
fn put_methods(text: &mut Vec<u8>, status: Status) -> Result<(), Memory>
    ensures { IfOk result (λ done. text.new.items ≡ with_methods text.old.items status) }
{
    match status {
        Status::MethodNotAllowed => put_field(text, b"Allow", b"GET, HEAD"),
        _ => Ok(()),
    }
}

/// Writes what the body is.
#[tactic(auto, unfolding(crate::specs::Heads::with_kind))]
fn put_kind(text: &mut Vec<u8>, kind: Kind) -> Result<(), Memory>
    ensures { IfOk result (λ done. text.new.items ≡ with_kind text.old.items kind) }
{
    put_field(text, b"Content-Type", kind.word())?;
    put_field(text, b"X-Content-Type-Options", b"nosniff")?;
    Ok(())
}

/// Writes how many bytes the body has.
#[tactic(auto, unfolding(crate::specs::Heads::with_size))]
fn put_size(text: &mut Vec<u8>, size: Option<u64>) -> Result<(), Memory>
    ensures { IfOk result (λ done. text.new.items ≡ with_size text.old.items size) }
{
    match size {
        Some(size) => put_number(text, b"Content-Length", size),
        None => Ok(()),
    }
}

/// Writes the tag of what is shown.
#[tactic(auto, unfolding(crate::specs::Heads::with_version))]
fn put_version(text: &mut Vec<u8>, start: &[u8], tag: Option<u64>) -> Result<(), Memory>
    ensures { IfOk result (λ done. text.new.items ≡ with_version text.old.items start.now tag) }
{
    match tag {
        Some(version) => {
            put_field(text, b"Cache-Control", b"no-cache")?;
            put_tag(text, b"ETag", start, version)?;
            Ok(())
        }
        None => put_field(text, b"Cache-Control", b"no-store"),
    }
}

/// Writes whether the client may ask again, and ends the head.
#[tactic(auto, unfolding(crate::specs::Heads::with_end))]
fn put_end(text: &mut Vec<u8>, stays: bool) -> Result<(), Memory>
    ensures { IfOk result (λ done. text.new.items ≡ with_end text.old.items stays) }
{
    put_field(text, b"Connection", stay_word(stays))?;
    put(text, b"\r\n")?;
    Ok(())
}

impl Head {
    /// Writes it behind a text, for a centre that has begun so.
    ///
    /// # Errors
    ///
    /// [`Memory`]: there is no room for it.
    #[tactic(auto, unfolding(crate::specs::Heads::with_head))]
    pub fn put(&self, start: &[u8], text: &mut Vec<u8>) -> Result<(), Memory>
        ensures { IfOk result (λ done. text.new.items ≡ with_head text.old.items start.now self.now) }
    {
        put_status(text, self.status)?;
        put_methods(text, self.status)?;
        put_kind(text, self.kind)?;
        put_size(text, self.size)?;
        put_version(text, start, self.tag)?;
        put_end(text, self.stays)?;
        Ok(())
    }
}
