//! The two kinds of level, speeds and gradients, as words of a line.

ghost use Rattle.std.specs.Prelude.{◌≡◌, ◌+◌, ◌≤◌, ◌++◌, length, refl};
ghost use Rattle.rbc_model.specs.Kinds.{Kind, speed_kind, grade_kind};
ghost use Rattle.rbc_words.specs.Values.{value_in};

use crate::tail_buffer::TailBuffer;
use crate::words::{integer, number};
use rbc_steps::{Grade, Level, Speed};

/// How a kind of level stands in a line of text.
pub trait Spelled: Level {
    /// Its command, and how its values are read and printed.
    ghost kind: { Kind Self };

    /// The command that asks for a profile of such levels.
    fn command() -> &'static [u8]
        ensures command { result.now ≡ kind.command }
        ensures short { length result.now ≤ 16 };

    /// The level that a word writes, if it is in range.
    fn read(word: &[u8]) -> Option<Self>
        ensures { result ≡ value_in kind word.now };

    /// Puts the level as a word before a text.
    fn gather(self, text: &mut TailBuffer)
        requires { length text.old + 21 ≤ 256 }
        ensures text { text.new ≡ kind.print self ++ text.old }
        ensures length { length text.new ≤ length text.old + 21 };

    /// The text is of these levels.
    ghost same_levels: { kind.levels ≡ Self.levels };
}

/// Speeds in km/h.
impl Spelled for Speed {
    ghost kind = { speed_kind };

    fn command() -> &'static [u8] {
        b"speed"
    }

    fn read(word: &[u8]) -> Option<Speed> {
        Speed::new(u16::try_from(number(word)?).ok()?)
    }

    fn gather(self, text: &mut TailBuffer) {
        text.number(u64::from(self.kmh()));
    }

    ghost same_levels = { refl };
}

/// Gradients in per mille, downhill with a `-`.
impl Spelled for Grade {
    ghost kind = { grade_kind };

    fn command() -> &'static [u8] {
        b"grade"
    }

    fn read(word: &[u8]) -> Option<Grade> {
        Grade::new(i16::try_from(integer(word)?).ok()?)
    }

    fn gather(self, text: &mut TailBuffer) {
        text.signed(i64::from(self.per_mille()));
    }

    ghost same_levels = { refl };
}
