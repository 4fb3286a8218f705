//! Clients: who comes to be served, what is known of them then, and of how they went.

ghost use Rattle.std.specs.Prelude.{◌≡◌, ◌≢◌, ◌∷◌, [], List, Option, Result, false, Err, IfOk, IfErr, OnErr};
ghost use Rattle.rbc_model.specs.declared.limits.TheConstants.{LONGEST_LINE};
ghost use Rattle.rbc_streams.specs.LineReading.{at_start};
ghost use Rattle.rbc_port.specs.Clients.{Coming, Parting, Came, NoneComes, at_close, unheard};

use crate::port::PortFailed;
use rbc_model::SessionFault;
use rbc_streams::{LineReader, Sink, Source};
use std::alloc::Global;
use std::io::Eprint;
use std::snapshot::Snapshot;
use std::time::Clock;

/// What a session with a client needs.
#[derive(Drop)]
pub struct Ends<R, W> {
    /// What the client says is read of this.
    pub reader: R,
    /// What it is told is written to this.
    pub writer: W,
    /// Room for its lines.
    pub lines: LineReader,
}

/// A client that came.
pub trait Client {
    /// What it says is read of this.
    type Reader: Source + Drop;

    /// What it is told is written to this.
    type Writer: Sink + Drop;

    /// What is left of it once it was let go.
    type Gone: Drop;

    /// What is known of it when it comes.
    ghost coming: { Self → Coming };

    /// What is known of it once it was let go.
    ghost parting: { Self.Gone → Parting };

    /// Its two ends, and room for its lines: a session with it needs no other memory to begin.
    ///
    /// # Errors
    /// There is no memory for them. It was let go: nothing of it was read, and it was told nothing.
    fn begin<T: Clock + Eprint>(
        self,
        rt: &T,
        alloc: Global,
    ) -> Result<Ends<Self::Reader, Self::Writer>, Self::Gone>
        ensures says { IfOk result (λ ends. Self.Reader.left ends.reader ≡ (coming self).says) }
        ensures told { IfOk result (λ ends. Self.Writer.written ends.writer ≡ (coming self).told) }
        ensures handed_on { IfOk result (λ ends. Self.Writer.held_back ends.writer ≡ []) }
        ensures reads { IfOk result (λ ends. Self.Reader.failed ends.reader ≡ false) }
        ensures writes { IfOk result (λ ends. Self.Writer.failed ends.writer ≡ false) }
        ensures lines { IfOk result (λ ends. ends.lines ≡ at_start LONGEST_LINE) }
        ensures memory { IfErr result (λ gone. parting gone ≡ unheard (coming self)) };

    /// Lets it go, after a session that ended so. Only one that did not begin can end for want of memory.
    fn let_go<T: Clock + Eprint>(
        rt: &T,
        alloc: Global,
        reader: Self::Reader,
        writer: Self::Writer,
        ended: Result<(), SessionFault>,
    ) -> Self::Gone
        requires began { ended ≢ Err SessionFault.Memory }
        ensures { parting result ≡ record {
          unread = Self.Reader.left reader;
          told = Self.Writer.written writer;
          held_back = Self.Writer.held_back writer;
          found_end = Self.Reader.ended reader;
          read_failed = Self.Reader.failed reader;
          write_failed = Self.Writer.failed writer;
          ended = ended;
        } };
}

/// Clients that come, one after the other.
pub trait Clients {
    /// Each of them.
    type Each: Client;

    /// What is known of those that are still to come, in order, where it is known who comes.
    ghost coming: { Self → Option (List Coming) };

    /// Waits for the next client.
    ///
    /// # Errors
    /// `PortFailed`, where no client can be accepted any more. Where it is known who comes, none is left then.
    fn accept<T: Clock + Eprint>(&mut self, rt: &T, alloc: Global) -> Result<Self::Each, PortFailed>
        ensures next { IfOk result (λ client. Came (coming self.old) (coming self.new) (Self.Each.coming client ∷ [])) }
        ensures none { OnErr result (NoneComes (coming self.old)) };
}

/// Clients that are accepted no more.
#[derive(Drop)]
pub struct Closed<P> {
    was: Snapshot<P>,
}

impl<P: Drop> Closed<P> {
    /// From now on none of these is accepted. Who connects to a port after that is refused.
    pub fn new(port: P) -> Closed<P>
        ensures { at_close result ≡ port }
    {
        let was = Snapshot::of(&port);
        drop(port);
        Closed { was }
    }
}
