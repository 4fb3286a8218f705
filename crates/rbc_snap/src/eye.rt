//! A reader's end, which stands in a seat.

ghost use Rattle.std.specs.Prelude.{◌≡◌, ◌≤◌, length, Some, Ok, IfErr, IfOk, IfSome};
ghost use Rattle.std.specs.Arc.{arc_value};
ghost use Rattle.left_right.specs.Sides.{view as known_to};
ghost use Rattle.rbc_record.specs.Records.{IsRight};
ghost use Rattle.rbc_snap.specs.Ends.{watching};
ghost use Rattle.rbc_snap.specs.Events.{event_at};
ghost use Rattle.rbc_snap.specs.Knowing.{knower, knower_of};
ghost use Rattle.rbc_snap.specs.Later.{IsLater, scene_of};
ghost use Rattle.rbc_snap.specs.Looks.{IsOfVersion, IsSeenIn, IsUnshared};
ghost use Rattle.rbc_snap.specs.Sights.{seen_of};

use crate::events::{Events, event_at};
use crate::rule::{Known, OneHistory, Sees};
use crate::{Behind, EyeFault, HistoryName, Published, Sight};
use core::mem::replace_with;
use left_right::reader::{Reader, Reading};
use rbc_model::{Event, OrMemory, TrainId};
use rbc_record::{Scene, View, view};
use std::alloc::Global;
use std::marker::{Model, PhantomData};
use std::sync::{Arc, Wait};

pub(crate) type End = Reader<Published, Known, OneHistory>;

type Seeing = Reading<Published, Known, OneHistory>;

/// The view of a train, with the version.
type Viewed = Result<(View, u64), OrMemory<EyeFault>>;

/// The whole scene, with the version.
type Shown = Result<(Arc<Scene>, u64), OrMemory<Behind>>;

/// An eye, through which a seat views the published scene. Contracts see it as what its seat was told, and as how many
/// entries it knows to be published.
#[derive(Drop)]
pub struct Eye<J: HistoryName> {
    reader: End,
    told: Sight,
    events: Arc<Events<J>>,
    of: PhantomData<J>,
}

impl<J: HistoryName> Model for Eye<J> {
    ghost use Rattle.std.specs.Prelude.{◌≡◌};
    ghost use Rattle.rbc_snap.specs.Ends.{Watching, watching};
    ghost use Rattle.rbc_snap.specs.Knowing.{knower};

    ghost Value = { Watching };

    ghost view = { λ e. watching e.told.history e.reader.place.me.0.client.entries };

    ghost invariant = { λ e. (e.reader.place.me.0.client ≡ knower J.book e.reader.place.me.0.client.entries) × (e.told.book ≡ J.book) };
}

/// What a look answers, and what is told by it.
struct Answered<A> {
    answer: A,
    told: Sight,
}

/// The view of a train in what is published, where that is not behind what was told.
fn look(shown: &Published, told: &Sight, alloc: Global, train: TrainId) -> Answered<Viewed>
    requires { shown.now.sight.book ≡ told.now.book }
    ensures book { result.told.book ≡ told.now.book }
    ensures later { IsLater told.now.history result.told.history }
    ensures seen { IsSeenIn told.now.history result.told.history train result.answer }
    ensures version { IsOfVersion (length shown.now.sight.history.entries) result.told.history result.answer }
    ensures newest { length told.now.history.entries ≤ length shown.now.sight.history.entries → result.told ≡ shown.now.sight }
{
    told.known();
    let version = shown.sight.version();
    if shown.sight.is_behind(told) {
        return Answered {
            answer: Err(OrMemory::Refused(EyeFault::Behind(version))),
            told: told.again(),
        };
    }
    match view(alloc, &shown.scene, train) {
        Ok(view) => Answered {
            answer: Ok((view, version)),
            told: shown.sight.again(),
        },
        Err(OrMemory::Refused(fault)) => Answered {
            answer: Err(OrMemory::Refused(EyeFault::Unshown(fault, version))),
            told: shown.sight.again(),
        },
        Err(OrMemory::Memory) => Answered {
            answer: Err(OrMemory::Memory),
            told: shown.sight.again(),
        },
    }
}

/// The scene that is published, where that is not behind what was told.
fn share(published: &Published, told: &Sight) -> Answered<Shown>
    requires { published.now.sight.book ≡ told.now.book }
    ensures book { result.told.book ≡ told.now.book }
    ensures later { IsLater told.now.history result.told.history }
    ensures scene { IfOk result.answer (λ seen. arc_value seen.0 ≡ scene_of result.told.history) }
    ensures version { IfOk result.answer (λ seen. (seen.1 ≡ length result.told.history.entries)
        × (seen.1 ≡ length published.now.sight.history.entries)) }
    ensures unshared { IfErr result.answer (IsUnshared told.now.history result.told.history
        (length published.now.sight.history.entries)) }
{
    told.known();
    let version = published.sight.version();
    if published.sight.is_behind(told) {
        return Answered {
            answer: Err(OrMemory::Refused(Behind { version })),
            told: told.again(),
        };
    }
    match Arc::try_clone(&published.scene) {
        Ok(scene) => Answered {
            answer: Ok((scene, version)),
            told: published.sight.again(),
        },
        Err(_) => Answered {
            answer: Err(OrMemory::Memory),
            told: published.sight.again(),
        },
    }
}

/// A reader finds nothing published only where the press is gone.
fn enter<J: HistoryName, R: Wait>(rt: &R, mut reader: End) -> Seeing
    requires { known_to reader.place ≡ knower J.book (known_to reader.place).entries }
    ensures book { result.part.value.sight.book ≡ J.book }
    ensures knows { known_to result.place ≡ knower_of result.part.value.sight }
    ensures known { (known_to reader.place).entries ≤ length result.part.value.sight.history.entries }
{
    for _ in rt.forever() {
        match reader.enter_as::<Sees>() {
            Ok(reading) => return reading,
            Err(back) => reader = back,
        }
    }
    unreachable!()
}

fn enter_and_look<J: HistoryName, R: Wait>(
    rt: &R,
    reader: End,
    told: &Sight,
    alloc: Global,
    number: u32,
) -> (End, Answered<Viewed>)
    requires knows { known_to reader.place ≡ knower J.book (known_to reader.place).entries }
    requires told { told.now.book ≡ J.book }
    ensures knows { known_to result.0.place ≡ knower J.book (known_to result.0.place).entries }
    ensures known { (known_to reader.place).entries ≤ (known_to result.0.place).entries }
    ensures book { result.1.told.book ≡ J.book }
    ensures later { IsLater told.now.history result.1.told.history }
    ensures seen { IsSeenIn told.now.history result.1.told.history number result.1.answer }
    ensures version { IsOfVersion (known_to result.0.place).entries result.1.told.history result.1.answer }
{
    let reading = enter::<J, R>(rt, reader);
    let seen = look(reading.get(), told, alloc, TrainId::new(number));
    (reading.leave(), seen)
}

fn enter_and_share<J: HistoryName, R: Wait>(
    rt: &R,
    reader: End,
    told: &Sight,
) -> (End, Answered<Shown>)
    requires knows { known_to reader.place ≡ knower J.book (known_to reader.place).entries }
    requires told { told.now.book ≡ J.book }
    ensures knows { known_to result.0.place ≡ knower J.book (known_to result.0.place).entries }
    ensures known { (known_to reader.place).entries ≤ (known_to result.0.place).entries }
    ensures book { result.1.told.book ≡ J.book }
    ensures later { IsLater told.now.history result.1.told.history }
    ensures scene { IfOk result.1.answer (λ seen. arc_value seen.0 ≡ scene_of result.1.told.history) }
    ensures version { IfOk result.1.answer (λ seen. (seen.1 ≡ length result.1.told.history.entries)
        × (seen.1 ≡ (known_to result.0.place).entries)) }
    ensures unshared { IfErr result.1.answer (IsUnshared told.now.history result.1.told.history
        (known_to result.0.place).entries) }
{
    let reading = enter::<J, R>(rt, reader);
    let seen = share(reading.get(), told);
    (reading.leave(), seen)
}

impl<J: HistoryName> Eye<J> {
    /// An eye over a reader and over these events, whose seat was told this.
    pub(crate) fn over(reader: End, told: Sight, events: Arc<Events<J>>) -> Eye<J>
        requires knows { known_to reader.place ≡ knower J.book (known_to reader.place).entries }
        requires told { told.book ≡ J.book }
        ensures { result ≡ watching told.history (known_to reader.place).entries }
    {
        Eye {
            reader,
            told,
            events,
            of: PhantomData,
        }
    }

    /// The view of a train in the published scene, with its version, which is never below one that this eye has seen. The
    /// seat is told all that the scene stands for.
    ///
    /// # Errors
    ///
    /// `Refused` with the first of these:
    /// - `Behind` with the published version, where it is below what the seat was told,
    /// - `Unshown` with why the train is shown no end, and the version.
    ///
    /// `Memory`, where there is a train of this number in the published scene, and no room for its view.
    pub fn view<R: Wait>(
        &mut self,
        rt: &R,
        alloc: Global,
        train: TrainId,
    ) -> Result<(View, u64), OrMemory<EyeFault>>
        ensures later { IsLater self.old.told self.new.told }
        ensures seen { IsSeenIn self.old.told self.new.told train result }
        ensures version { IsOfVersion self.new.published self.new.told result }
        ensures known { self.old.published ≤ self.new.published }
    {
        let Eye { reader, told, .. } = self;
        let now: &Sight = told;
        let look = replace_with(reader, (rt, now, alloc, train.number()), |reader, x| {
            enter_and_look::<J, R>(x.0, reader, x.1, x.2, x.3)
        });
        let Answered { answer, told: then } = look;
        *told = then;
        answer
    }

    /// The published scene, shared and not copied, with its version, which is never below one that this eye has seen. The
    /// seat is told all that the scene stands for.
    ///
    /// # Errors
    ///
    /// `Refused` with `Behind`, which has the published version, where that is below what the seat was told: nothing more is
    /// told then. `Memory`, where the scene can't be shared once more.
    pub fn scene<R: Wait>(&mut self, rt: &R) -> Result<(Arc<Scene>, u64), OrMemory<Behind>>
        ensures later { IsLater self.old.told self.new.told }
        ensures scene { IfOk result (λ seen. arc_value seen.0 ≡ scene_of self.new.told) }
        ensures version { IfOk result (λ seen. (seen.1 ≡ length self.new.told.entries)
            × (seen.1 ≡ self.new.published)) }
        ensures unshared { IfErr result (IsUnshared self.old.told self.new.told self.new.published) }
        ensures known { self.old.published ≤ self.new.published }
    {
        let Eye { reader, told, .. } = self;
        let now: &Sight = told;
        let shown = replace_with(reader, (rt, now), |reader, x| {
            enter_and_share::<J, R>(x.0, reader, x.1)
        });
        let Answered { answer, told: then } = shown;
        *told = then;
        answer
    }

    /// The event at a place of the history that its seat was told. None from that history's end on, and where the press has
    /// not put it there.
    pub fn event(&self, place: u64) -> Option<Event>
        ensures event { IfSome result (λ event. event_at self.now.told place ≡ Some event) }
    {
        event_at(&self.events, &self.told, place)
    }

    /// Takes in what the press told.
    pub fn learn(&mut self, token: Sight)
        requires { token.book ≡ J.book }
        ensures later { IsLater self.old.told self.new.told }
        ensures told { length self.old.told.entries ≤ length token.history.entries → self.new.told ≡ token.history }
        ensures known { self.new.published ≡ self.old.published }
    {
        self.told.known();
        if !token.is_behind(&self.told) {
            self.told = token;
        }
    }

    /// Takes in what the seat of another eye was told.
    pub fn hear(&mut self, other: &Eye<J>)
        ensures later { IsLater self.old.told self.new.told }
        ensures heard { IsLater other.now.told self.new.told }
        ensures known { self.new.published ≡ self.old.published }
    {
        self.told.known();
        if self.told.is_behind(&other.told) {
            other.told.known();
            self.told = other.told.again();
        }
    }

    /// What its seat was told.
    pub fn sight(&self) -> Sight
        ensures { result ≡ seen_of J.book self.now.told }
    {
        self.told.again()
    }

    /// What its seat was told is a right history. This does nothing.
    pub fn known(&self)
        ensures { IsRight self.now.told }
    {
        self.told.known();
    }

    /// How many entries its seat was told.
    pub fn version(&self) -> u64
        ensures { result ≡ length self.now.told.entries }
    {
        self.told.version()
    }
}
