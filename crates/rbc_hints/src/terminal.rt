//! A terminal, at which a session is talked.

use crate::forms::{FORMS, SLOTS};
use crate::passing::Side;
use crate::talk::Talk;
use rbc_model::{Lock, SectionId};
use rbc_track::Track;
use std::alloc::Global;
use std::cell::RefCell;
use std::io::Eprint;
use std::sync::Arc;

/// What stands before each line.
const PROMPT: &str = "rbc> ";

/// A terminal: what it is told stands on the standard error. Where memory is refused for a hint, no hint is told any more.
#[derive(Drop)]
pub struct Terminal<'a, P> {
    rt: &'a P,
    talk: RefCell<Option<Talk>>,
}

impl<'a, P: Eprint> Terminal<'a, P> {
    /// A terminal at which nothing was said, for a session on this track.
    pub fn new(alloc: Global, rt: &'a P, track: Arc<Track>) -> Terminal<'a, P> {
        Terminal {
            rt,
            talk: RefCell::new(Some(Talk::new(alloc, track))),
        }
    }

    /// A section is locked so before the session, as by a journal.
    pub fn add_lock(&self, section: SectionId, lock: &Lock) {
        let Ok(mut slot) = self.talk.try_borrow_mut() else {
            return;
        };
        let Some(talk) = &mut *slot else {
            return;
        };
        if talk.add_lock(section, lock).is_err() {
            *slot = None;
        }
    }

    /// The session has ended: what is left to say is said.
    pub fn end(&self) {
        if let Ok(mut slot) = self.talk.try_borrow_mut() {
            if let Some(talk) = &mut *slot {
                let _ = talk.end();
            }
        }
        self.tell_hints();
    }

    /// Before a read: the hints that are due, and a prompt, unless the line has begun.
    pub(crate) fn prompt(&self) {
        self.tell_hints();
        if !self.has_begun() {
            let _ = self.rt.eprint(PROMPT);
        }
    }

    /// Whether a part of a line has been read.
    fn has_begun(&self) -> bool {
        match self.talk.try_borrow() {
            Ok(slot) => match &*slot {
                Some(talk) => talk.has_begun(),
                None => false,
            },
            Err(_) => false,
        }
    }

    /// Tells the hints that are due.
    fn tell_hints(&self) {
        let Ok(mut slot) = self.talk.try_borrow_mut() else {
            return;
        };
        let Some(talk) = &mut *slot else {
            return;
        };
        match talk.hints() {
            Ok(hints) => {
                let _ = self.rt.eprint(hints);
            }
            Err(_) => *slot = None,
        }
    }

    /// These bytes pass.
    pub(crate) fn pass(&self, side: Side, bytes: &[u8]) {
        let Ok(mut slot) = self.talk.try_borrow_mut() else {
            return;
        };
        let Some(talk) = &mut *slot else {
            return;
        };
        if talk.pass(side, bytes).is_err() {
            *slot = None;
        }
    }

    /// The input has ended: what comes next on the screen begins a line.
    pub(crate) fn end_input(&self) {
        let _ = self.rt.eprintln("");
    }

    /// Tells the requests of a session, and what their words are.
    pub(crate) fn help(&self) {
        self.tell_forms();
        self.tell_slots();
        let _ = self.rt.eprintln(
            "The end of the input, Ctrl-D, ends the session. It is given no line `help`.",
        );
    }

    /// Tells each request, and what it is for.
    fn tell_forms(&self) {
        for form in FORMS {
            let purpose = form.purpose;
            let _ = self.rt.eprintln(format_args!("{form}: {purpose}"));
        }
    }

    /// Tells what each word of a request is, and what may stand there.
    fn tell_slots(&self) {
        for slot in SLOTS {
            let (letters, meaning) = (slot.letters(), slot.meaning());
            let _ = self
                .rt
                .eprintln(format_args!("  {letters}: {meaning}; {slot}"));
        }
    }
}
