//! What is answered to a request.

ghost use Rattle.std.specs.Prelude.{◌≡◌, ◌&&◌, not, [], length, IfOk};
ghost use Rattle.rbc_page.specs.Answers.{answer_with, body_of, has_body, head_of, is_early, is_known, is_told_lines, kind_of, refusal_head, refusal_text, scene_status, size_of, status_of, tag_of, unless_known, with_body};

use crate::fields::put;
use crate::{Asked, Head, Kind, Resource, Status};
use rbc_model::Memory;

/// What there is to be shown.
#[derive(Clone, Copy)]
pub struct Bodies<'a> {
    /// The viewer.
    pub viewer: &'a [u8],
    /// The lines of the track.
    pub track: &'a [u8],
    /// The lines of the scene.
    pub scene: &'a [u8],
    /// The lines of the history that are asked for.
    pub history: &'a [u8],
    /// What was counted.
    pub metrics: &'a [u8],
}

/// Whether the client waits for more than so many entries.
fn is_early(after: Option<u64>, version: u64) -> bool
    ensures { result ≡ is_early after version }
{
    match after {
        Some(after) => version < after,
        None => false,
    }
}

/// Whether the client has this version.
fn is_known(known: Option<u64>, version: u64) -> bool
    ensures { result ≡ is_known known version }
{
    match known {
        Some(known) => known == version,
        None => false,
    }
}

/// How what does not change is answered.
fn unless_known(is_known: bool) -> Status
    ensures { result ≡ unless_known is_known }
{
    if is_known {
        Status::NotModified
    } else {
        Status::Content
    }
}

/// How a scene is answered.
fn scene_status(is_early: bool, is_known: bool) -> Status
    ensures { result ≡ scene_status is_early is_known }
{
    if is_early {
        Status::NoContent
    } else {
        unless_known(is_known)
    }
}

impl Resource {
    /// What its body is.
    fn kind(self) -> Kind
        ensures { result ≡ kind_of self }
    {
        match self {
            Resource::Viewer => Kind::Html,
            Resource::Track | Resource::Scene | Resource::History | Resource::Health => Kind::Plain,
            Resource::Metrics => Kind::Numbers,
        }
    }

    /// The version of what is shown.
    fn tag(self, version: u64) -> Option<u64>
        ensures { result ≡ tag_of self version }
    {
        match self {
            Resource::Viewer | Resource::Track => Some(0),
            Resource::Scene | Resource::History => Some(version),
            Resource::Metrics | Resource::Health => None,
        }
    }
}

impl Status {
    /// Whether an answer with it has a body.
    fn has_body(self) -> bool
        ensures { result ≡ has_body self }
    {
        !matches!(self, Status::NoContent | Status::NotModified)
    }
}

/// The size that a head tells.
fn size_of(has_body: bool, size: usize) -> Option<u64>
    ensures { result ≡ size_of has_body size }
{
    if has_body { Some(size as u64) } else { None }
}

impl Asked {
    /// How it is answered.
    fn status(&self, version: u64) -> Status
        ensures { result ≡ status_of self.now.page self.now.after self.now.known version }
    {
        match self.page {
            Resource::Viewer | Resource::Track => unless_known(is_known(self.known, 0)),
            Resource::Scene => scene_status(
                is_early(self.after, version),
                is_known(self.known, version),
            ),
            Resource::History => unless_known(is_known(self.known, version)),
            Resource::Metrics | Resource::Health => Status::Content,
        }
    }

    /// Whether it waits for a scene of more than so many entries.
    pub fn is_early(&self, version: u64) -> bool
        ensures { result ≡ is_early self.now.after version }
    {
        is_early(self.after, version)
    }

    /// Whether lines of a history of so many entries are told: they are asked for, and the client has another version.
    pub fn is_told_lines(&self, version: u64) -> bool
        ensures { result ≡ is_told_lines self.now.page self.now.known version }
    {
        match self.page {
            Resource::History => !is_known(self.known, version),
            Resource::Viewer
            | Resource::Track
            | Resource::Scene
            | Resource::Metrics
            | Resource::Health => false,
        }
    }

    /// The head of its answer.
    fn head(&self, version: u64, size: usize) -> Head
        ensures { result ≡ head_of self.now version size }
    {
        let status = self.status(version);
        Head {
            status,
            kind: self.page.kind(),
            size: size_of(status.has_body(), size),
            tag: self.page.tag(version),
            stays: self.stays,
        }
    }
}

impl<'a> Bodies<'a> {
    /// What the page shows.
    fn of(&self, page: Resource) -> &'a [u8]
        ensures { result.now ≡ body_of page (record { viewer = self.now.viewer.now; track = self.now.track.now; scene = self.now.scene.now; history = self.now.history.now; metrics = self.now.metrics.now }) }
    {
        match page {
            Resource::Viewer => self.viewer,
            Resource::Track => self.track,
            Resource::Scene => self.scene,
            Resource::History => self.history,
            Resource::Metrics => self.metrics,
            Resource::Health => b"ok\n",
        }
    }
}

/// Writes a body, if it is sent.
fn put_body(text: &mut Vec<u8>, is_sent: bool, body: &[u8]) -> Result<(), Memory>
    ensures { IfOk result (λ done. text.new.items ≡ with_body text.old.items is_sent body.now) }
{
    if is_sent { put(text, body) } else { Ok(()) }
}

/// Writes the answer to a request, of a centre that has begun so, into an empty text. The scene is that of a history with so
/// many entries.
///
/// # Errors
///
/// [`Memory`]: there is no room for it.
#[tactic(auto, unfolding(crate::specs::Answers::answer_with))]
pub fn write_answer(
    text: &mut Vec<u8>,
    start: &[u8],
    asked: &Asked,
    bodies: &Bodies<'_>,
    version: u64,
) -> Result<(), Memory>
    requires { text.old.items ≡ [] }
    ensures { IfOk result (λ done. text.new.items ≡ answer_with start.now asked.now (record {
      viewer = bodies.now.viewer.now;
      track = bodies.now.track.now;
      scene = bodies.now.scene.now;
      history = bodies.now.history.now;
      metrics = bodies.now.metrics.now;
    }) version) }
{
    let body = bodies.of(asked.page);
    let head = asked.head(version, body.len());
    head.put(start, text)?;
    put_body(text, head.status.has_body() && !asked.is_head, body)?;
    Ok(())
}

/// Writes how a request is refused, into an empty text.
///
/// # Errors
///
/// [`Memory`]: there is no room for it.
#[tactic(auto, unfolding(crate::specs::Answers::refusal_text))]
pub fn refuse(text: &mut Vec<u8>, start: &[u8], status: Status) -> Result<(), Memory>
    requires { text.old.items ≡ [] }
    ensures { IfOk result (λ done. text.new.items ≡ refusal_text start.now status) }
{
    let head = Head {
        status,
        kind: Kind::Plain,
        size: Some(0),
        tag: None,
        stays: false,
    };
    head.put(start, text)?;
    Ok(())
}
