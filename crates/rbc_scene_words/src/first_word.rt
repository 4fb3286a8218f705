//! The first word of a line of a scene, which says what the others tell.

ghost use Rattle.std.specs.Prelude.{◌≡◌};
ghost use Rattle.rbc_scene_words.specs.SceneLine.{first_word};

/// The first word of a line of a scene.
#[derive(Clone, Copy)]
pub(crate) enum FirstWord {
    Scene,
    Locked,
    Train,
    Line,
    Along,
    Stands,
    Holds,
    Next,
    Done,
}

/// The word as the first of a line, if it is one.
pub(crate) fn first_word(word: &[u8]) -> Option<FirstWord>
    ensures { result ≡ first_word word.now }
{
    if word == b"scene".as_slice() {
        Some(FirstWord::Scene)
    } else if word == b"locked".as_slice() {
        Some(FirstWord::Locked)
    } else if word == b"train".as_slice() {
        Some(FirstWord::Train)
    } else if word == b"line".as_slice() {
        Some(FirstWord::Line)
    } else if word == b"along".as_slice() {
        Some(FirstWord::Along)
    } else if word == b"stands".as_slice() {
        Some(FirstWord::Stands)
    } else if word == b"holds".as_slice() {
        Some(FirstWord::Holds)
    } else if word == b"next".as_slice() {
        Some(FirstWord::Next)
    } else if word == b"done".as_slice() {
        Some(FirstWord::Done)
    } else {
        None
    }
}
