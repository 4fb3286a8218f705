//! How many entries the history of a centre may have.

use rbc_show::sessions::EntryLimit;

/// The limit that a command line asks for, or the usual one.
pub(crate) fn limit_of(entries: Option<usize>) -> EntryLimit {
    match entries {
        Some(entries) => EntryLimit::new(entries).unwrap_or(EntryLimit::usual()),
        None => EntryLimit::usual(),
    }
}
