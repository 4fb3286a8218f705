//! A seat from which a centre is looked at.

ghost use Rattle.std.specs.Prelude.{◌≡◌, [], true, Some, option_map, IfOk, OnOk};
ghost use Rattle.std.specs.Arc.{arc_value};
ghost use Rattle.rbc_desk.specs.Looking.{HasLooked};
ghost use Rattle.rbc_desk.specs.Later.{IsLater};
ghost use Rattle.rbc_page.specs.Moments.{answer_to, scene_text, told_lines, version_of};
ghost use Rattle.rbc_desk.specs.States.{state_of};

use crate::history::history_lines;
use crate::text::scene_text;
use crate::{Asked, Bodies, write_answer};
use rbc_desk::{DeskName, Seat, State};
use rbc_model::Memory;
use rbc_track::Track;
use std::alloc::Global;
use std::sync::{Arc, Wait};

/// A seat from which nothing is entered, with the lines of the scene that it was told last, where these are kept. It looks at
/// what is published, and never takes the desk's lock.
#[derive(Drop)]
pub struct Lookout<L: DeskName> {
    seat: Seat<L>,
    lines: Vec<u8>,
    track: Option<Arc<Track>>,
    state: State,
    is_kept: bool,
    ghost shown: { is_kept ≡ true → lines.items ≡ scene_text seat.told },
    ghost on_track: { is_kept ≡ true → option_map arc_value track ≡ Some seat.told.track },
    ghost counted: { is_kept ≡ true → state ≡ state_of seat.told },
}

impl<L: DeskName> Lookout<L> {
    /// From this seat, with no lines so far.
    pub fn new(alloc: Global, seat: Seat<L>) -> Lookout<L>
        ensures seat { result.seat ≡ seat }
    {
        Lookout {
            seat,
            lines: Vec::new(alloc),
            track: None,
            state: State {
                version: 0,
                trains: 0,
                locked: 0,
            },
            is_kept: false,
        }
    }

    /// Looks at the scene that is published, and keeps its lines. The seat is told the history that led to it.
    ///
    /// # Errors
    ///
    /// [`Memory`]: there is none for the lines, or the scene can't be shared once more. No lines are kept then.
    pub fn look<R: Wait>(&mut self, rt: &R, alloc: Global) -> Result<(), Memory>
        ensures later { IsLater self.old.seat.told self.new.seat.told }
        ensures looked { HasLooked self.old.seat self.new.seat }
        ensures kept { OnOk result (self.new.is_kept ≡ true) }
    {
        let was_kept = self.is_kept;
        self.is_kept = false;
        let (scene, version) = match self.seat.published(rt) {
            Ok(seen) => seen,
            Err(_) => return Err(Memory),
        };
        if was_kept && version == self.state.version {
            self.is_kept = true;
            return Ok(());
        }
        self.lines = scene_text(alloc, version, &scene)?;
        self.track = Some(Arc::try_clone(scene.track())?);
        self.state = State::of(version, &scene);
        self.is_kept = true;
        Ok(())
    }

    /// Looks, if it is needed. Where that fails, no lines are kept.
    pub fn look_if<R: Wait>(&mut self, rt: &R, alloc: Global, is_needed: bool)
        ensures { HasLooked self.old.seat self.new.seat }
    {
        if is_needed {
            let _ = self.look(rt, alloc);
        }
    }

    /// The version of the scene whose lines are kept.
    pub fn version(&self) -> u64
        requires { self.now.is_kept ≡ true }
        ensures { result ≡ version_of self.now.seat.told }
    {
        self.state.version
    }

    /// The state of the centre at that moment.
    pub fn state(&self) -> State
        requires { self.now.is_kept ≡ true }
        ensures { result ≡ state_of self.now.seat.told }
    {
        self.state
    }

    /// Whether lines are kept.
    pub fn is_kept(&self) -> bool
        ensures { result ≡ self.now.is_kept }
    {
        self.is_kept
    }

    /// The seat back.
    pub fn into_seat(self) -> Seat<L>
        ensures { result ≡ self.seat }
    {
        let Lookout { seat, .. } = self;
        seat
    }

    /// The lines of the history that a request asks for, where such are told.
    ///
    /// # Errors
    ///
    /// [`Memory`]: there is none for them, or not all entries are where they are read.
    fn told_lines(&self, alloc: Global, asked: &Asked) -> Result<Vec<u8>, Memory>
        requires kept { self.now.is_kept ≡ true }
        ensures { IfOk result (λ text. text.items ≡ told_lines asked.now self.now.seat.told) }
    {
        if !asked.is_told_lines(self.state.version) {
            return Ok(Vec::new(alloc));
        }
        match &self.track {
            Some(track) => history_lines(alloc, track, &self.seat, asked.from),
            None => Err(Memory),
        }
    }

    /// Writes the answer to a request, of a centre that has begun so, into an empty text: at the moment of the history that the
    /// seat was told last.
    ///
    /// # Errors
    ///
    /// [`Memory`]: there is no room for it, or not all entries of a history that is asked for are where they are read.
    pub fn answer(
        &self,
        alloc: Global,
        text: &mut Vec<u8>,
        start: &[u8],
        asked: &Asked,
        standing: &Fixed<'_>,
    ) -> Result<(), Memory>
        requires kept { self.now.is_kept ≡ true }
        requires empty { text.old.items ≡ [] }
        ensures { IfOk result (λ done. text.new.items ≡ answer_to start.now (record {
          viewer = standing.now.viewer.now;
          track = standing.now.track.now;
          metrics = standing.now.metrics.now;
        }) asked.now self.now.seat.told) }
    {
        let history = self.told_lines(alloc, asked)?;
        let bodies = Bodies {
            viewer: standing.viewer,
            track: standing.track,
            scene: self.lines.as_slice(),
            history: history.as_slice(),
            metrics: standing.metrics,
        };
        write_answer(text, start, asked, &bodies, self.state.version)
    }
}

/// What does not change while a centre stays, and what was counted.
#[derive(Clone, Copy)]
pub struct Fixed<'a> {
    /// The viewer.
    pub viewer: &'a [u8],
    /// The lines of the track.
    pub track: &'a [u8],
    /// What was counted, as Prometheus reads it.
    pub metrics: &'a [u8],
}
