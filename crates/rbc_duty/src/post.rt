//! Where clients come to a seat.

ghost use Rattle.std.specs.Prelude.{◌≡◌, map, false, IfOk, vec_len};

use rbc_server::{DeskName, Seat, Sitting};
use std::alloc::{AllocError, Global};

/// A sitting, and the port by which clients come to it.
#[derive(Drop)]
pub struct Post<L: DeskName, Q, P> {
    /// The sitting.
    pub sitting: Sitting<L, Q>,
    /// Its port.
    pub port: P,
    pub ghost whole: { sitting.has_failed ≡ false },
}

impl<L: DeskName, Q, P> Post<L, Q, P> {
    /// The seat with its committer and its port.
    fn new(seat: Seat<L>, committer: Q, port: P) -> Post<L, Q, P>
        ensures seat { result.sitting.seat ≡ seat }
        ensures committer { result.sitting.committer ≡ committer }
        ensures port { result.port ≡ port }
    {
        Post {
            sitting: Sitting::new(seat, committer),
            port,
        }
    }
}

impl<L: DeskName, Q: Drop, P: Drop> Post<L, Q, P> {
    /// These seats, in order, each with its committer and its port.
    ///
    /// # Errors
    ///
    /// The allocator refuses memory.
    pub fn all(
        alloc: Global,
        seats: Vec<Seat<L>>,
        committers: Vec<Q>,
        ports: Vec<P>,
    ) -> Result<Vec<Post<L, Q, P>>, AllocError>
        requires committers { vec_len committers ≡ vec_len seats }
        requires ports { vec_len ports ≡ vec_len seats }
        ensures seats { IfOk result (λ posts. map (λ post. post.sitting.seat) posts.items ≡ seats.items) }
        ensures committers { IfOk result (λ posts. map (λ post. post.sitting.committer) posts.items ≡ committers.items) }
        ensures ports { IfOk result (λ posts. map (λ post. post.port) posts.items ≡ ports.items) }
        ensures count { IfOk result (λ posts. vec_len posts ≡ vec_len seats) }
    {
        let mut posts = Vec::with_capacity(alloc, seats.len())?;
        let mut committers = committers.into_iter();
        let mut ports = ports.into_iter();
        for seat in seats {
            if let Some(committer) = committers.next() {
                if let Some(port) = ports.next() {
                    posts.push_reserved(Post::new(seat, committer, port));
                }
            }
        }
        Ok(posts)
    }
}
