//! A seat on duty.

ghost use Rattle.rbc_server.specs.Connections.{TellsFailure};
ghost use Rattle.rbc_duty.specs.Duties.{IsDuty};

use crate::Post;
use rbc_port::{Client, Clients, Closing};
use rbc_server::{DeskName, Keeper, OpenGate, SessionContext, Sitting, Visit, connection};
use rbc_streams::{Sink, Source};
use std::alloc::Global;
use std::io::Eprint;
use std::sync::Wait;
use std::thread::Threads;
use std::time::Clock;

/// What a duty leaves.
#[derive(Drop)]
pub struct Duty<L: DeskName, Q> {
    /// The sitting that clients were served from, after it.
    pub sitting: Sitting<L, Q>,
    /// Whether no client could be accepted any more, though the end had not been asked for.
    pub is_port_lost: bool,
}

/// Serves the clients that come to this post, one after the other, until the end is asked for, no client can be accepted any
/// more or a request can't be kept; in the last two cases it asks for the end itself. A fault of a session ends its client's
/// connection, and nothing else.
#[tactic(auto, using(crate::proofs::VisitLemmas::ends, crate::proofs::VisitLemmas::ends_without))]
pub fn serve_in_turn<
    'a,
    L: DeskName,
    Q: Drop,
    X: Drop,
    K: Keeper<L, Committer = Q, Text = X>,
    I: Source + Drop,
    O: Sink + Drop,
    G: Drop,
    C: Client<Reader = I, Writer = O, Gone = G>,
    P: Clients<Each = C> + Drop,
    E: Closing,
    T: Threads + Wait + Clock + Eprint + Sync,
>(
    rt: &T,
    alloc: Global,
    context: &SessionContext<'a, L, K, OpenGate, T>,
    closing: &E,
    post: Post<L, Q, P>,
) -> Duty<L, Q>
    ensures duty { IsDuty K.kept (record {
      coming = P.coming post.port;
      before = post.sitting;
      after = result.sitting;
      lost = result.is_port_lost;
    }) }
    ensures failed { TellsFailure K.failed result.sitting }
{
    let Post {
        mut sitting,
        mut port,
        ..
    } = post;
    let mut is_port_lost = false;
    for _served in 0..u64::MAX {
        if sitting.has_failed || closing.is_asked() {
            break;
        }
        let Ok(client) = port.accept(rt, alloc) else {
            is_port_lost = !closing.is_asked();
            break;
        };
        let Visit { sitting: left, .. } = connection(rt, alloc, context, sitting, client);
        sitting = left;
    }
    ask_where(rt, closing, sitting.has_failed || is_port_lost);
    Duty {
        sitting,
        is_port_lost,
    }
}

/// Asks for the end, if there is reason to.
fn ask_where<E: Closing, T: Wait + Clock>(rt: &T, closing: &E, is_over: bool) {
    if is_over {
        closing.ask(rt);
    }
}
