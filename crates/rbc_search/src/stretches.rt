//! What other trains have of a section.

ghost use Rattle.std.specs.Prelude.{◌≡◌, ◌++◌, [], ◌∷◌, IfOk, OnOk};
ghost use Rattle.rbc_model.specs.Tracks.{metres_of};
ghost use Rattle.rbc_search.specs.Stretches.{as_list, but, span_has, span_met_on, span_on, stretch_of, stretches_along, stretches_in, stretches_of};

use rbc_book::{Along, Book, Train};
use rbc_model::{Direction, Leg, Memory, SectionId, TrainId};
use std::alloc::Global;
use std::slice;

/// Metres of a leg from one up to another, which is left out. There are none where the first is not the lower one.
#[derive(Clone, Copy)]
pub(crate) struct Span {
    pub(crate) low: u32,
    pub(crate) high: u32,
}

/// What a train has of a section: the metres of its extent and of its authority, counted from the start of the leg
/// that the train's line has of it.
#[derive(Clone, Copy)]
pub(crate) struct Stretch {
    pub(crate) train: TrainId,
    pub(crate) direction: Direction,
    pub(crate) extent: Span,
    pub(crate) authority: Span,
}

/// What trains have of a section, in their order. What a single train has takes no memory of its own: few sections have
/// more.
#[derive(Drop)]
pub(crate) enum Row {
    Free,
    One(Stretch),
    Several(Vec<Stretch>),
}

/// What the places from `from` up to `to` are on a leg that begins at `begin` and is `metres` long.
fn span_on(metres: u32, begin: u32, from: u32, to: u32) -> Span
    ensures { result ≡ span_on metres begin from to }
{
    Span {
        low: from.saturating_sub(begin),
        high: to.saturating_sub(begin).min(metres),
    }
}

impl Span {
    /// The span as a train meets it on a leg of the section's metres, in the same direction or not.
    pub(crate) fn met(self, same: bool, metres: u32) -> Span
        ensures { result ≡ span_met_on same metres self }
    {
        if same {
            return self;
        }
        Span {
            low: metres.saturating_sub(self.high),
            high: metres.saturating_sub(self.low),
        }
    }

    /// Whether the span has the metre.
    pub(crate) fn has(self, metre: u32) -> bool
        ensures { result ≡ span_has self metre }
    {
        self.low <= metre && metre < self.high
    }
}

impl Row {
    /// The row of what a single train has.
    fn of(stretch: Option<Stretch>) -> Row
        ensures { stretches_in result ≡ as_list stretch }
    {
        match stretch {
            Some(stretch) => Row::One(stretch),
            None => Row::Free,
        }
    }

    /// Puts a stretch behind the others.
    fn push(&mut self, alloc: Global, stretch: Stretch) -> Result<(), Memory>
        ensures { OnOk result (stretches_in self.new ≡ stretches_in self.old ++ stretch ∷ []) }
    {
        match self {
            Row::Free => *self = Row::One(stretch),
            Row::One(first) => {
                let several = vec![in alloc; *first, stretch]?;
                *self = Row::Several(several);
            }
            Row::Several(several) => several.push(stretch)?,
        }
        Ok(())
    }

    /// The stretches, in order.
    pub(crate) fn as_slice(&self) -> &[Stretch]
        ensures { result.now ≡ stretches_in self.now }
    {
        match self {
            Row::Free => &[],
            Row::One(stretch) => slice::from_ref(stretch),
            Row::Several(several) => several.as_slice(),
        }
    }
}

/// What the train has of the section of a leg of its line that begins at `begin` and is `metres` long.
fn stretch_of(train: &Train, begin: u32, leg: Leg, metres: u32) -> Stretch
    requires { metres ≡ metres_of train.now.track leg.section }
    ensures { result ≡ stretch_of train.now.track train.now.train begin leg }
{
    Stretch {
        train: train.id(),
        direction: leg.direction,
        extent: span_on(metres, begin, train.rear(), train.front()),
        authority: span_on(metres, begin, train.from(), train.to()),
    }
}

/// What the train has of the section, if its line has a leg of it.
fn stretch_along(train: &Train, section: SectionId) -> Option<Stretch>
    ensures { as_list result ≡ stretches_along train.now.track train.now.train section 0 train.now.train.line }
{
    let line = train.line();
    let legs = line.legs();
    line.known();
    let mut begin = 0;
    for leg in legs {
        let metres = line.track().metres_of(leg);
        if leg.section == section {
            return Some(stretch_of(train, begin, *leg, metres));
        }
        begin += metres;
    }
    None
}

/// Puts what the train has of the section behind the others, unless it is the train of this number.
fn add_train(
    alloc: Global,
    row: &mut Row,
    train: &Train,
    id: TrainId,
    section: SectionId,
) -> Result<(), Memory>
    ensures { OnOk result (stretches_in row.new ≡ stretches_in row.old
        ++ stretches_of train.now.track (but id (train.now.train ∷ [])) section) }
{
    if train.id() == id {
        return Ok(());
    }
    match stretch_along(train, section) {
        Some(stretch) => row.push(alloc, stretch),
        None => Ok(()),
    }
}

/// What the book's trains but the one of this number have of the section, by a look at each of them.
fn row_of_several(
    alloc: Global,
    book: &Book,
    id: TrainId,
    section: SectionId,
) -> Result<Row, Memory>
    ensures { IfOk result (λ row. stretches_in row ≡ stretches_of book.now.track (but id book.now.trains) section) }
{
    let mut row = Row::Free;
    for train in book.trains() {
        add_train(alloc, &mut row, train, id, section)?;
    }
    Ok(row)
}

/// What the book's trains but the one of this number have of the section. Where one of them alone has a leg of it on its
/// line, or none has, it looks at no other.
///
/// # Errors
///
/// [`Memory`] where there is none for what several trains have.
pub(crate) fn row_of(
    alloc: Global,
    book: &Book,
    id: TrainId,
    section: SectionId,
) -> Result<Row, Memory>
    ensures { IfOk result (λ row. stretches_in row ≡ stretches_of book.now.track (but id book.now.trains) section) }
{
    match book.others_along(id, section) {
        Along::Nobody => Ok(Row::Free),
        Along::One(train) => Ok(Row::of(stretch_along(train, section))),
        Along::Several => row_of_several(alloc, book, id, section),
    }
}
