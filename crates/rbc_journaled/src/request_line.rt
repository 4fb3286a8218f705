//! The line by which a journal tells an entry.

ghost use Rattle.std.specs.Prelude.{◌≡◌, Ok, IfOk};
ghost use Rattle.rbc_model.specs.SessionText.{parse_session, IsSayable};
ghost use Rattle.rbc_words.specs.SessionLines.{request_view};

use crate::line_text;
use rbc_group_commit::LONGEST_NOTE;
use rbc_model::Memory;
use rbc_words::Request;
use std::alloc::Global;
use std::marker::Model;

/// The line of a request, without a line feed, of at most 4,096 bytes, and room for a note behind it. Contracts see its bytes.
#[derive(Drop)]
pub struct RequestLine {
    pub(crate) bytes: Vec<u8>,
    pub(crate) room: Vec<u8>,
}

impl Model for RequestLine {
    ghost use Rattle.std.specs.Prelude.{ℕ, ◌≡◌, ◌≤◌, List, length, vec_len, vec_capacity};
    ghost use Rattle.rbc_group_commit.specs.declared.line.TheConstants.{LONGEST_NOTE};
    ghost use Rattle.rbc_journal.specs.Journal.{IsTold};
    ghost use Rattle.rbc_model.specs.declared.limits.TheConstants.{LONGEST_LINE};

    ghost Value = { List ℕ };

    ghost view = { λ l. l.bytes.items };

    ghost invariant = { λ l. IsTold l.bytes.items × (length l.bytes.items ≤ LONGEST_LINE) × (vec_len l.room ≡ 0) × (LONGEST_NOTE ≤ vec_capacity l.room) };
}

impl RequestLine {
    /// The line of a request, one space between its words, and room for a note.
    ///
    /// # Errors
    ///
    /// `Memory`, where there is none for both.
    pub(crate) fn of(alloc: Global, request: &Request) -> Result<RequestLine, Memory>
        requires { IsSayable (request_view request.now) }
        ensures { IfOk result (λ line. parse_session line ≡ Ok (request_view request.now)) }
    {
        let bytes = line_text(alloc, request)?;
        let room = Vec::with_capacity(alloc, LONGEST_NOTE)?;
        Ok(RequestLine { bytes, room })
    }
}
