//! A session that is shown as a page: the viewer, with the lines inside.

ghost use Rattle.std.specs.Prelude.{◌≡◌, ◌↔◌, ◌⊎◌, ℕ, List, Ok, [], true, false, IsTrue, IfErr, OnOk, Err};
ghost use Rattle.std.specs.Io.KnownBytes.{Appends, IsAtEnd};
ghost use Rattle.rbc_sessions.specs.Records.{begin_of};
ghost use Rattle.rbc_model.specs.declared.sessions.SessionFault.TheVariants.{Read, Write};
ghost use Rattle.rbc_show.specs.Showing.{each_text, shown_text};
ghost use Rattle.rbc_show.specs.ShownPages.{ShowsPage, ShowsEachPage};
ghost use Rattle.rbc_viewer.specs.Pages.{rest_of_page};

use crate::each::show_each;
use crate::last::show;
use rbc_sessions::Record;
use rbc_streams::{SessionFault, Sink, Source, WriteFailed};
use rbc_viewer::{Escaping, begin_page, end_page};
use std::alloc::Global;
use std::thread::Threads;

/// Writes the end of a page, with no verdicts, where its text was shown to its end.
fn close<W: Sink>(writer: W, shown: Result<(), SessionFault>) -> (W, Result<(), SessionFault>)
    requires { OnOk shown (W.failed writer ≡ false) }
    ensures shown { OnOk result.1 (shown ≡ Ok tt) }
    ensures text { OnOk result.1 (Appends (W.written writer) (W.written result.0) (rest_of_page [])) }
    ensures handed_on { OnOk result.1 (W.held_back result.0 ≡ []) }
    ensures fault { IfErr result.1 (λ fault. ((shown ≡ Err fault) × (result.0 ≡ writer))
        ⊎ ((shown ≡ Ok tt) × (fault ≡ Write) × (W.failed result.0 ≡ true))) }
{
    if shown.is_err() {
        return (writer, shown);
    }
    let mut writer = writer;
    match end_page(b"", &mut writer) {
        Ok(()) => (writer, Ok(())),
        Err(WriteFailed) => (writer, Err(SessionFault::Write)),
    }
}

/// Writes the viewer with what [`show`] writes inside, and no verdicts, and gives the writer back.
///
/// # Errors
///
/// Whatever [`show`] answers. The page is not written to its end then.
pub fn show_page<R: Source, W: Sink>(
    rt: &(impl Threads + Sync),
    alloc: Global,
    history: Record,
    reader: &mut R,
    writer: W,
) -> (W, Result<(), SessionFault>)
    requires reader { R.failed reader.old ≡ false }
    requires writer { W.failed writer ≡ false }

    // A read fault is answered exactly where the reader failed, and a write fault only where the writer did.
    ensures read { (result.1 ≡ Err Read) ↔ IsTrue (R.failed reader.new) }
    ensures write { result.1 ≡ Err Write → IsTrue (W.failed result.0) }

    // Ok is answered at the end of the input, which the last read found, and all was written and handed on.
    ensures end { OnOk result.1 (IsAtEnd (R.left reader.new)) }
    ensures ended { OnOk result.1 (R.ended reader.new ≡ true) }
    ensures handed_on { OnOk result.1 (W.held_back result.0 ≡ []) }

    // What was written is the page of the track, and of the scene that what was read leads to.
    ensures shown { OnOk result.1 (ShowsPage (shown_text (begin_of history) history.entries) (R.left reader.old)
        (W.written writer) (W.written result.0)) }
{
    let mut writer = writer;
    if begin_page(&mut writer).is_err() {
        return (writer, Err(SessionFault::Write));
    }
    let mut page = Escaping::new(writer);
    let shown = show(rt, alloc, history, reader, &mut page);
    close(page.into_writer(), shown)
}

/// Writes the viewer with what [`show_each`] writes inside, and no verdicts, and gives the writer back.
///
/// # Errors
///
/// Whatever [`show_each`] answers. The page is not written to its end then.
pub fn show_each_page<R: Source, W: Sink>(
    rt: &(impl Threads + Sync),
    alloc: Global,
    history: Record,
    reader: &mut R,
    writer: W,
) -> (W, Result<(), SessionFault>)
    requires reader { R.failed reader.old ≡ false }
    requires writer { W.failed writer ≡ false }

    // A read fault is answered exactly where the reader failed, and a write fault only where the writer did.
    ensures read { (result.1 ≡ Err Read) ↔ IsTrue (R.failed reader.new) }
    ensures write { result.1 ≡ Err Write → IsTrue (W.failed result.0) }

    // Ok is answered at the end of the input, which the last read found, and all was written and handed on.
    ensures end { OnOk result.1 (IsAtEnd (R.left reader.new)) }
    ensures ended { OnOk result.1 (R.ended reader.new ≡ true) }
    ensures handed_on { OnOk result.1 (W.held_back result.0 ≡ []) }

    // What was written is the page of the track, the scene before, and what was read, line by line, where memory was never
    // refused.
    ensures shown { OnOk result.1 (ShowsEachPage (each_text (begin_of history) history.entries) (R.left reader.old)
        (W.written writer) (W.written result.0)) }
{
    let mut writer = writer;
    if begin_page(&mut writer).is_err() {
        return (writer, Err(SessionFault::Write));
    }
    let mut page = Escaping::new(writer);
    let shown = show_each(rt, alloc, history, reader, &mut page);
    close(page.into_writer(), shown)
}
