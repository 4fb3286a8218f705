//! The writer's end, which stands under the lock.

ghost use Rattle.std.specs.Prelude.{◌≡◌, ◌≤◌, ◌<◌, ◌^◌, drop, length, take, replicate, IfOk, MatchBool, MatchResult};
ghost use Rattle.std.specs.Arc.{arc_value};
ghost use Rattle.left_right.specs.Sides.{view as known_to};
ghost use Rattle.rbc_logbook_laws.specs.Counts.{head_of};
ghost use Rattle.rbc_snap.specs.Ends.{pressed, put, watching};
ghost use Rattle.rbc_snap.specs.Knowing.{knower, knower_of};
ghost use Rattle.rbc_snap.specs.Later.{IsLater, scene_of};
ghost use Rattle.rbc_snap.specs.Sights.{seen_of};

use crate::events::{Events, add_if, no_events};
use crate::eye::End;
use crate::moments::Head;
use crate::rule::{Known, Names, OneHistory, Sees};
use crate::{Eye, HistoryName, Issue, NewHistory, Published, Sight};
use core::mem::replace_with;
use left_right::writer::Writer;
use rbc_model::Memory;
use rbc_record::{EntryLimit, Record, Scene};
use std::alloc::Global;
use std::marker::{Model, PhantomData};
use std::sync::{Arc, Wait};

type Ends = Writer<Published, Issue, Known, OneHistory>;

/// After so many publications neither copy holds a scene any more; a reader still may.
const SPARES: usize = 3;

/// The scenes that were published last, of which the oldest is the memory of the next one, once no reader holds it.
type Spares = [Option<Arc<Scene>>; SPARES];

/// A press, which publishes scenes of a record. Contracts see it as all that it was handed to publish, and as the moment
/// of it that is published. It is no `Drop`: end it by [`Press::end`].
pub struct Press<J: HistoryName> {
    writer: Ends,
    spares: Spares,
    head: Head,
    sight: Sight,
    events: Arc<Events<J>>,
    has_events: bool,
    of: PhantomData<J>,
}

impl<J: HistoryName> Model for Press<J> {
    ghost use Rattle.std.specs.Prelude.{◌≡◌};
    ghost use Rattle.rbc_logbook_laws.specs.Counts.{head_of};
    ghost use Rattle.rbc_snap.specs.Ends.{Pressed, pressed};
    ghost use Rattle.rbc_snap.specs.Later.{IsLater};

    ghost Value = { Pressed };

    ghost view = { λ p. pressed p.sight.history p.writer.desk.shown.value.sight.history };

    ghost invariant = { λ p. (p.writer.desk.shown.value.sight.book ≡ J.book) × (p.head ≡ head_of J.book) × (p.sight.book ≡ J.book) × IsLater p.writer.desk.shown.value.sight.history p.sight.history };
}

/// Shows readers all that was put, and tells whether it could.
fn turn<R: Wait>(rt: &R, writer: Ends) -> (Ends, bool)
    requires book { writer.desk.shown.value.sight.book ≡ (put writer.desk.shown.value.sight (drop writer.behind writer.log.items)).book }
    requires later { length writer.desk.shown.value.sight.history.entries ≤ length (put writer.desk.shown.value.sight (drop writer.behind writer.log.items)).history.entries }
    ensures { MatchBool result.1
        ((result.0.desk.shown.value.sight ≡ put writer.desk.shown.value.sight (drop writer.behind writer.log.items)) × (known_to result.0.desk.place ≡ knower_of (put writer.desk.shown.value.sight (drop writer.behind writer.log.items))))
        (result.0.desk.shown.value.sight ≡ writer.desk.shown.value.sight) }
{
    let (writer, answer) = writer.publish_as::<Sees, R>(rt);
    (writer, answer.is_ok())
}

/// Puts the issue and shows it to readers, and tells whether it could.
fn put_and_turn<R: Wait>(rt: &R, writer: Ends, issue: Issue) -> (Ends, bool)
    requires book { writer.desk.shown.value.sight.book ≡ issue.sight.book }
    requires later { IsLater writer.desk.shown.value.sight.history issue.sight.history }
    ensures { MatchBool result.1 (result.0.desk.shown.value.sight ≡ issue.sight)
        (result.0.desk.shown.value.sight ≡ writer.desk.shown.value.sight) }
{
    let mut writer = writer;
    if writer.append(issue).is_err() {
        return (writer, false);
    }
    turn(rt, writer)
}

/// Shows readers the issue.
fn show<R: Wait>(rt: &R, writer: &mut Ends, issue: Issue) -> Result<(), Memory>
    requires book { writer.old.desk.shown.value.sight.book ≡ issue.sight.book }
    requires later { IsLater writer.old.desk.shown.value.sight.history issue.sight.history }
    ensures { MatchResult result (λ _. writer.new.desk.shown.value.sight ≡ issue.sight)
        (λ _. writer.new.desk.shown.value.sight ≡ writer.old.desk.shown.value.sight) }
{
    let is_shown = replace_with(
        writer,
        (rt, issue),
        |writer, x| put_and_turn(x.0, writer, x.1),
    );
    if !is_shown {
        return Err(Memory);
    }
    Ok(())
}

/// A reader that knows what the writer knows.
fn reader(writer: &mut Ends) -> Result<End, Memory>
    ensures knows { known_to writer.new.desk.place ≡ known_to writer.old.desk.place }
    ensures shown { writer.new.desk.shown.value ≡ writer.old.desk.shown.value }
    ensures reader { IfOk result (λ r. known_to r.place ≡ known_to writer.old.desk.place) }
{
    let mut reader = writer.factory().reader()?;
    reader.learn::<Names>(writer.tell::<Names>());
    Ok(reader)
}

/// An eye that knows what the writer knows, and whose seat was told this.
fn eye<J: HistoryName>(
    writer: &mut Ends,
    sight: &Sight,
    events: &Arc<Events<J>>,
) -> Result<Eye<J>, Memory>
    requires knows { known_to writer.old.desk.place ≡ knower J.book (known_to writer.old.desk.place).entries }
    requires book { sight.now.book ≡ J.book }
    ensures knows { known_to writer.new.desk.place ≡ known_to writer.old.desk.place }
    ensures shown { writer.new.desk.shown.value ≡ writer.old.desk.shown.value }
    ensures eye { IfOk result (λ eye. eye ≡ watching sight.now.history (known_to writer.old.desk.place).entries) }
{
    let events = Arc::try_clone(events)?;
    Ok(Eye::over(reader(writer)?, sight.again(), events))
}

/// For how many events there is room from the beginning on: none where they are not wanted, else for all that there may be, but for
/// no more than a history usually has.
fn room_for(are_wanted: bool, log: &Record) -> usize {
    if !are_wanted {
        return 0;
    }
    let most = log.most().entries();
    most.min(EntryLimit::usual().entries())
}

/// Goes on to the record. Only the press adds moments, so the first try succeeds.
fn advance<R: Wait>(rt: &R, head: &Head, sight: &mut Sight, log: &Record)
    requires head { head.now ≡ head_of sight.old.book }
    requires later { IsLater sight.old.history log.now }
    ensures { sight.new ≡ seen_of sight.old.book log.now }
{
    for _ in rt.forever() {
        if sight.grow(head, log) {
            return;
        }
    }
    unreachable!()
}

/// A copy of the record's scene, in the memory of the spare one where nobody holds that any more.
fn copy_of(alloc: Global, log: &Record, spare: Option<Arc<Scene>>) -> Result<Scene, Memory>
    ensures { IfOk result (λ scene. scene ≡ scene_of log.now) }
{
    match spare.and_then(Arc::into_inner) {
        Some(spare) => log.snapshot_in(alloc, spare),
        None => log.snapshot(alloc),
    }
}

/// The scene of the record, in the memory of the oldest spare one. It is kept in that one's place.
fn scene_of(alloc: Global, log: &Record, spares: &mut Spares) -> Result<Arc<Scene>, Memory>
    ensures { IfOk result (λ scene. arc_value scene ≡ scene_of log.now) }
{
    let scene = Arc::new(alloc, copy_of(alloc, log, spares[0].take())?)?;
    spares[0] = Some(Arc::try_clone(&scene)?);
    spares.rotate_left(1);
    Ok(scene)
}

/// The finished scene of the record.
fn issue(alloc: Global, sight: &Sight, log: &Record, spares: &mut Spares) -> Result<Issue, Memory>
    requires { sight.now.history ≡ log.now }
    ensures { IfOk result (λ i. i.sight ≡ sight.now) }
{
    let scene = scene_of(alloc, log, spares)?;
    Ok(Issue {
        sight: sight.again(),
        scene,
    })
}

/// The two copies for the record, as its moment.
fn copies(alloc: Global, sight: &Sight, log: &Record) -> Result<(Published, Published), Memory>
    requires { sight.now.history ≡ log.now }
    ensures { IfOk result (λ both. (both.0.sight ≡ sight.now) × (both.1.sight ≡ sight.now)) }
{
    let scene = Arc::new(alloc, log.snapshot(alloc)?)?;
    let first = Published {
        sight: sight.again(),
        scene: Arc::try_clone(&scene)?,
    };
    let second = Published {
        sight: sight.again(),
        scene,
    };
    Ok((first, second))
}

/// Both ends of the copies for the record, of which readers see the one, with room for so many of them.
fn ends<R: Wait>(
    rt: &R,
    alloc: Global,
    sight: &Sight,
    log: &Record,
    readers: usize,
) -> Result<Ends, Memory>
    requires same { sight.now.history ≡ log.now }
    requires readers { (0 < readers) × (readers < 2 ^ 32) }
    ensures shown { IfOk result (λ writer. writer.desk.shown.value.sight ≡ sight.now) }
    ensures knows { IfOk result (λ writer. known_to writer.desk.place ≡ knower_of sight.now) }
{
    let (first, second) = copies(alloc, sight, log)?;
    let (writer, is_shown) = turn(rt, Writer::new(alloc, first, second, readers)?);
    if !is_shown {
        let _ = writer.take(rt);
        return Err(Memory);
    }
    Ok(writer)
}

/// So many eyes, each as [`eye`] makes it.
fn eyes<J: HistoryName>(
    alloc: Global,
    writer: &mut Ends,
    sight: &Sight,
    events: &Arc<Events<J>>,
    readers: usize,
) -> Result<Vec<Eye<J>>, Memory>
    requires knows { known_to writer.old.desk.place ≡ knower J.book (known_to writer.old.desk.place).entries }
    requires book { sight.now.book ≡ J.book }
    ensures shown { writer.new.desk.shown.value ≡ writer.old.desk.shown.value }
    ensures eyes { IfOk result (λ eyes. eyes.items
        ≡ replicate readers (watching sight.now.history (known_to writer.old.desk.place).entries)) }
{
    let mut eyes = Vec::with_capacity(alloc, readers)?;
    for _reader in 0..readers {
        eyes.push_reserved(eye(writer, sight, events)?);
    }
    Ok(eyes)
}

impl<J: HistoryName> Press<J> {
    /// A press over the record, with `readers` eyes. The journal is that of its history, in which nothing stands yet.
    ///
    /// # Errors
    ///
    /// [`Memory`], where the allocator refuses room for the scenes, for the events of the record, or for the readers.
    pub fn new<R: Wait>(
        rt: &R,
        alloc: Global,
        book: NewHistory,
        log: &Record,
        readers: usize,
    ) -> Result<(Press<J>, Vec<Eye<J>>), Memory>
        requires book { book ≡ J.book }
        requires readers { (0 < readers) × (readers < 2 ^ 32) }
        ensures press { IfOk result (λ made. made.0 ≡ pressed log.now log.now) }
        ensures eyes { IfOk result (λ made. made.1.items ≡ replicate readers (watching log.now (length log.now.entries))) }
    {
        let has_events = book.has_events();
        let (head, sight) = book.begin(rt, log);
        log.right();
        let events = no_events(alloc, room_for(has_events, log))?;
        add_if(rt, has_events, &events, &sight, log)?;
        let mut writer = ends(rt, alloc, &sight, log, readers)?;
        match eyes(alloc, &mut writer, &sight, &events, readers) {
            Ok(eyes) => {
                let press = Press {
                    writer,
                    spares: [None, None, None],
                    head,
                    sight,
                    events,
                    has_events,
                    of: PhantomData,
                };
                Ok((press, eyes))
            }
            Err(fault) => {
                let _ = writer.take(rt);
                Err(fault)
            }
        }
    }

    /// All that the press was handed, for an eye to learn.
    pub fn tell(&self) -> Sight
        ensures { result ≡ seen_of J.book self.now.told }
    {
        self.sight.again()
    }

    /// Goes on to the record, and tells its history from now on. Readers see what they saw, until its scene is shown.
    pub fn follow<R: Wait>(&mut self, rt: &R, log: &Record)
        requires track { log.now.track ≡ self.old.told.track }
        requires begin { log.now.begin ≡ self.old.told.begin }
        requires most { log.now.most ≡ self.old.told.most }
        requires opening { take (length self.old.told.entries) log.now.entries ≡ self.old.told.entries }
        ensures { self.new ≡ pressed log.now self.old.published }
    {
        log.right();
        advance(rt, &self.head, &mut self.sight, log);
    }

    /// Puts the events of the record's new entries behind those that eyes read, if they do, and publishes its scene, unless readers see it.
    /// The press tells the history of the record.
    ///
    /// # Errors
    ///
    /// [`Memory`], where the allocator refuses room for the events, for the scene, or for what is published. Readers see what they
    /// saw, up to the next call, which adds what is left of the events.
    pub fn show<R: Wait>(&mut self, rt: &R, alloc: Global, log: &Record) -> Result<(), Memory>
        requires { self.old.told ≡ log.now }
        ensures told { self.new.told ≡ self.old.told }
        ensures published { MatchResult result (λ _. self.new.published ≡ log.now) (λ _. self.new.published ≡ self.old.published) }
    {
        if !self.is_behind() {
            return Ok(());
        }
        let Press {
            writer,
            spares,
            sight,
            events,
            has_events,
            ..
        } = self;
        add_if(rt, *has_events, events, sight, log)?;
        let issue = issue(alloc, sight, log, spares)?;
        show(rt, writer, issue)
    }

    /// Whether less is published than the press was handed.
    pub fn is_behind(&self) -> bool
        ensures { MatchBool result (length self.now.published.entries < length self.now.told.entries) (self.now.published ≡ self.now.told) }
    {
        self.writer.published().sight.is_behind(&self.sight)
    }

    /// Tells an eye all that the press was handed. It goes on from all that the eye's seat was told.
    pub fn bring<R: Wait>(&self, rt: &R, eye: &mut Eye<J>)
        ensures told { eye.new.told ≡ self.now.told }
        ensures later { IsLater eye.old.told self.now.told }
        ensures known { eye.new.published ≡ eye.old.published }
    {
        // No seat was told more than the press has, so the first try succeeds.
        for _ in rt.forever() {
            let token = self.tell();
            if eye.version() <= token.version() {
                eye.learn(token);
                return;
            }
        }
        unreachable!()
    }

    /// Ends the press. It waits for those that still read.
    pub fn end<R: Wait>(self, rt: &R) {
        let Press {
            writer,
            spares: _,
            head: _,
            sight: _,
            events: _,
            has_events: _,
            of: _,
        } = self;
        let _ = writer.take(rt);
    }
}
