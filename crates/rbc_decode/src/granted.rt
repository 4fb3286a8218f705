//! A line `granted`, by which a centre's reply to a train that may run on begins: what it tells of the authority.

ghost use Rattle.std.specs.Prelude.{◌≡◌, ◌∷◌, [], None, MatchOption};
ghost use Rattle.rbc_model.specs.Words.{words_of, without_return};
ghost use Rattle.rbc_decode.specs.GrantedLines.{train_in, only_word, leg_ahead, section_ahead, train_ahead, ahead_in, ahead_by, alone, grant_in, granted_by};
ghost use Rattle.rbc_decode.specs.declared.granted.Ahead.TheVariants.{Occupied, Held};

use rbc_model::limits::LAST_TRAIN;
use rbc_track::{LegName, Name};
use rbc_words::{integer, next_word, number, without_return};

/// The obstacle at which an authority ends, as a line tells it.
#[derive(Clone, Copy, Debug, PartialEq, Eq)]
pub enum Ahead {
    /// No locked section follows this leg.
    NoLink(LegName),
    /// The section of this name is not locked in the train's direction.
    NotLocked(Name),
    /// The way comes back onto itself.
    Own,
    /// The train of this number, 1 to 9,999,999, stands there.
    Occupied(u32),
    /// The train of this number, 1 to 9,999,999, was granted it.
    Held(u32),
    /// No authority ends farther from the group.
    Limit,
}

/// What a line `granted` tells.
#[derive(Clone, Copy, Debug, PartialEq, Eq)]
pub struct GrantedLine {
    /// The number of the train, 1 to 9,999,999.
    pub train: u32,
    /// The version: how many entries the history has.
    pub version: u64,
    /// Where the authority begins, in metres from the balise group of the train's last report, below 0 before it.
    pub beginning: i64,
    /// The obstacle at its end.
    pub obstacle: Ahead,
}

/// What a line tells, without its line feed, if it is a line `granted`.
pub(crate) fn granted_by(line: &[u8]) -> Option<GrantedLine>
    ensures { result ≡ granted_by (words_of (without_return line.now)) }
{
    let (word, rest) = next_word(without_return(line))?;
    if word == b"granted".as_slice() {
        grant_in(rest)
    } else {
        None
    }
}

/// The words behind the first one of such a line.
#[derive(Clone, Copy)]
struct GrantWords<'line> {
    train: &'line [u8],
    version: &'line [u8],
    beginning: &'line [u8],
    end: &'line [u8],
    /// All that are left.
    obstacle: &'line [u8],
}

/// The words behind the first one, if there are enough.
fn grant_words(words: &[u8]) -> Option<GrantWords<'_>>
    ensures { MatchOption result (grant_in (words_of words.now) ≡ None)
        (λ found. words_of words.now ≡ found.train.now ∷ found.version.now ∷ found.beginning.now ∷ found.end.now
        ∷ words_of found.obstacle.now) }
{
    let (train, rest) = next_word(words)?;
    let (version, rest) = next_word(rest)?;
    let (beginning, rest) = next_word(rest)?;
    let (end, obstacle) = next_word(rest)?;
    Some(GrantWords {
        train,
        version,
        beginning,
        end,
        obstacle,
    })
}

/// What the words behind the first one tell.
fn grant_in(words: &[u8]) -> Option<GrantedLine>
    ensures { result ≡ grant_in (words_of words.now) }
{
    let words = grant_words(words)?;
    let train = train_in(words.train)?;
    let version = number(words.version)?;
    let beginning = integer(words.beginning)?;
    let _ = number(words.end)?;
    let obstacle = ahead_in(words.obstacle)?;
    Some(GrantedLine {
        train,
        version,
        beginning,
        obstacle,
    })
}

/// The obstacle that words tell.
fn ahead_in(words: &[u8]) -> Option<Ahead>
    ensures { result ≡ ahead_in (words_of words.now) }
{
    let (name, words) = next_word(words)?;
    ahead_by(name, words)
}

/// The obstacle, by its name and the words behind it.
fn ahead_by(name: &[u8], words: &[u8]) -> Option<Ahead>
    ensures { result ≡ ahead_by name.now (words_of words.now) }
{
    if name == b"NoLink".as_slice() {
        leg_ahead(words)
    } else if name == b"NotLocked".as_slice() {
        section_ahead(words)
    } else if name == b"Own".as_slice() {
        alone(Ahead::Own, words)
    } else if name == b"Occupied".as_slice() {
        occupied_ahead(words)
    } else if name == b"Held".as_slice() {
        held_ahead(words)
    } else if name == b"Limit".as_slice() {
        alone(Ahead::Limit, words)
    } else {
        None
    }
}

/// What it is, if no word is left.
fn alone(obstacle: Ahead, words: &[u8]) -> Option<Ahead>
    ensures { result ≡ alone obstacle (words_of words.now) }
{
    match next_word(words) {
        None => Some(obstacle),
        Some(_) => None,
    }
}

/// The word, if it is the only one.
fn only_word(words: &[u8]) -> Option<&[u8]>
    ensures { MatchOption result (only_word (words_of words.now) ≡ None) (λ word. words_of words.now ≡ word.now ∷ []) }
{
    let (word, rest) = next_word(words)?;
    match next_word(rest) {
        None => Some(word),
        Some(_) => None,
    }
}

/// The leg that no locked section follows: the only word that is left.
fn leg_ahead(words: &[u8]) -> Option<Ahead>
    ensures { result ≡ leg_ahead (words_of words.now) }
{
    let leg = LegName::new(only_word(words)?)?;
    Some(Ahead::NoLink(leg))
}

/// The section that is not locked: the only word that is left.
fn section_ahead(words: &[u8]) -> Option<Ahead>
    ensures { result ≡ section_ahead (words_of words.now) }
{
    let section = Name::new(only_word(words)?)?;
    Some(Ahead::NotLocked(section))
}

/// The train that stands there: the only word that is left.
fn occupied_ahead(words: &[u8]) -> Option<Ahead>
    ensures { result ≡ train_ahead Occupied (words_of words.now) }
{
    let train = train_in(only_word(words)?)?;
    Some(Ahead::Occupied(train))
}

/// The train that was granted it: the only word that is left.
fn held_ahead(words: &[u8]) -> Option<Ahead>
    ensures { result ≡ train_ahead Held (words_of words.now) }
{
    let train = train_in(only_word(words)?)?;
    Some(Ahead::Held(train))
}

/// The train that a word writes.
fn train_in(word: &[u8]) -> Option<u32>
    ensures { result ≡ train_in word.now }
{
    match number(word) {
        Some(value) if value >= 1 && value <= u64::from(LAST_TRAIN) => Some(value as u32),
        _ => None,
    }
}
