//! The word that is meant by a misspelled one, for those who mend a text. No contract pins which one is told.
#![tactic(auto)]

use rbc_model::Memory;
use std::alloc::Global;
use strsim::osa_distance;

/// How long a text may be for which a word is looked for, in bytes.
const LONGEST: usize = 64;

/// How many letters may be missing, added, changed or swapped with the next one in a word of this length.
fn most_edits(length: usize) -> usize {
    match length {
        0..=3 => 1,
        4..=7 => 2,
        _ => 3,
    }
}

/// The word that is nearest to a text, if one is near: the first of those that are as near.
///
/// # Errors
///
/// The allocator refused memory.
pub fn nearest<'a>(
    alloc: Global,
    text: &str,
    words: &[&'a str],
) -> Result<Option<&'a str>, Memory> {
    let mut best = None;
    let mut least = most_edits(text.len()).saturating_add(1);
    for word in words {
        let edits = edits(alloc, text, word)?;
        if edits < least {
            least = edits;
            best = Some(*word);
        }
    }
    Ok(best)
}

/// How many edits lead from a text to a word. A long text is near to none.
fn edits(alloc: Global, text: &str, word: &str) -> Result<usize, Memory> {
    if text.len() > LONGEST {
        return Ok(usize::MAX);
    }
    Ok(osa_distance(alloc, text, word)?)
}
