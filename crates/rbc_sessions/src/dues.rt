//! What is due to the lines that rested, in their order: what was told is answered in few bytes, and an answer to a train that asked is large.

ghost use Rattle.std.specs.Prelude.{◌≡◌, ◌≤◌, ◌+◌, ◌∷◌, ◌++◌, ℕ, [], MatchBool};
ghost use Rattle.rbc_sessions.specs.Dues.{AskedSo, ToldSo, dues_of};

use std::alloc::Global;
use std::marker::Model;

/// Replies that are due to what was told, and answers that are due to trains that asked, in one order. The answers lie apart, since they are large.
/// Contracts see all of it in order, and for how many more there is room.
#[derive(Drop)]
pub(crate) struct Dues<T, A> {
    /// A reply to what was told, or none where the next answer is due.
    replies: Vec<Option<T>>,
    answers: Vec<A>,
    room: usize,
}

impl<T, A> Model for Dues<T, A> {
    ghost use Rattle.std.specs.Prelude.{◌≡◌, ◌≤◌, ◌+◌, length, vec_len, vec_capacity};
    ghost use Rattle.rbc_sessions.specs.Dues.{DueList, asked_in, dues_of};

    ghost Value = { DueList T A };

    ghost view = { λ d. record { dues = dues_of d.replies.items d.answers.items; room = d.room } };

    ghost invariant = { λ d. (asked_in d.replies.items ≡ length d.answers.items)
        × (vec_len d.replies + d.room ≤ vec_capacity d.replies) × (vec_len d.answers + d.room ≤ vec_capacity d.answers) };
}

impl<T: Copy + Drop, A: Drop> Dues<T, A> {
    /// Nothing is due.
    pub(crate) fn new(alloc: Global) -> Dues<T, A>
        ensures none { result.dues ≡ [] }
        ensures room { result.room ≡ 0 }
    {
        Dues {
            replies: Vec::new(alloc),
            answers: Vec::new(alloc),
            room: 0,
        }
    }

    /// Takes memory for so many more, and tells whether there was any.
    pub(crate) fn reserve(&mut self, more: usize) -> bool
        ensures dues { self.new.dues ≡ self.old.dues }
        ensures room { MatchBool result (self.new.room ≡ more) (self.new.room ≡ self.old.room) }
    {
        if self.replies.reserve(more).is_err() || self.answers.reserve(more).is_err() {
            return false;
        }
        self.room = more;
        true
    }

    /// The reply to what was told is due next.
    pub(crate) fn push_told(&mut self, reply: T)
        requires { 1 ≤ self.old.room }
        ensures dues { self.new.dues ≡ self.old.dues ++ ToldSo reply ∷ [] }
        ensures room { self.new.room + 1 ≡ self.old.room }
    {
        self.replies.push_reserved(Some(reply));
        self.room -= 1;
    }

    /// The answer to a train that asked is due next.
    pub(crate) fn push_asked(&mut self, answer: A)
        requires { 1 ≤ self.old.room }
        ensures dues { self.new.dues ≡ self.old.dues ++ AskedSo answer ∷ [] }
        ensures room { self.new.room + 1 ≡ self.old.room }
    {
        self.replies.push_reserved(None);
        self.answers.push_reserved(answer);
        self.room -= 1;
    }

    /// The replies to what was told, with none where an answer is due, and the answers.
    pub(crate) fn parts(&self) -> (&[Option<T>], &[A])
        ensures { dues_of result.0.now result.1.now ≡ self.now.dues }
    {
        (self.replies.as_slice(), self.answers.as_slice())
    }

    /// Nothing is due any more.
    pub(crate) fn clear(&mut self)
        ensures none { self.new.dues ≡ [] }
        ensures room { self.new.room ≡ self.old.room }
    {
        self.replies.clear();
        self.answers.clear();
    }
}
