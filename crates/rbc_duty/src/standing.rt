//! Seats on duty, each in a thread of its own.

ghost use Rattle.std.specs.Prelude.{◌≡◌, ◌≤◌, [], All, true, take, map, vec_len, vec_capacity, IsTrue};
ghost use Rattle.std.specs.List.{AllZip};
ghost use Rattle.std.specs.Thread.{IsSend, IsSync};
ghost use Rattle.rbc_server.specs.Connections.{TellsFailure};
ghost use Rattle.rbc_server.specs.Looking.{LooksOn};
ghost use Rattle.rbc_duty.specs.Duties.{AreOnDuty, IsDuty};

use crate::{Duty, Post, serve_in_turn};
use rbc_port::{Client, Clients, Closing};
use rbc_server::{DeskName, Keeper, Onlooker, OpenGate, SessionContext};
use rbc_streams::{Sink, Source};
use std::alloc::Global;
use std::io::Eprint;
use std::marker::PhantomData;
use std::snapshot::Snapshot;
use std::sync::Wait;
use std::thread;
use std::thread::{Promise, PromisedHandle, Threads};
use std::time::Clock;

/// The clients that come to the post are served from it.
#[derive(Drop)]
struct Stands<L: DeskName, K, Q, P>(Snapshot<Post<L, Q, P>>, PhantomData<K>);

impl<L: DeskName, K: Keeper<L, Committer = Q>, Q, P: Clients> Promise<Duty<L, Q>>
    for Stands<L, K, Q, P> {
    ghost use Rattle.rbc_server.specs.Connections.{TellsFailure};
    ghost use Rattle.rbc_duty.specs.Duties.{IsDuty};

    ghost kept_by = { λ promise duty. IsDuty K.kept (record {
      coming = P.coming promise.0.value.port;
      before = promise.0.value.sitting;
      after = duty.sitting;
      lost = duty.is_port_lost;
    }) × TellsFailure K.failed duty.sitting };
}

/// Waits until these duties have ended, and gives what they leave back in order, in the room that is there for it.
fn join_all<L: DeskName, Q: Drop, K: Keeper<L, Committer = Q>, P: Clients + Drop, T: Threads>(
    rt: &T,
    handles: Vec<PromisedHandle<Duty<L, Q>, Stands<L, K, Q, P>>>,
    mut back: Vec<Duty<L, Q>>,
) -> Vec<Duty<L, Q>>
    requires empty { vec_len back ≡ 0 }
    requires room { vec_len handles ≤ vec_capacity back }
    ensures on_duty { AllZip (λ handle duty. IsDuty K.kept (record {
      coming = P.coming handle.promise.0.value.port;
      before = handle.promise.0.value.sitting;
      after = duty.sitting;
      lost = duty.is_port_lost;
    }) × TellsFailure K.failed duty.sitting) handles.items result.items }
    ensures length { vec_len result ≡ vec_len handles }
{
    for handle in handles {
        back.push_reserved(handle.join(rt));
    }
    back
}

/// Room for the threads of this number of posts, and whether there is; else none.
fn handles_for<L: DeskName, Q: Drop, K: Keeper<L, Committer = Q>, P: Clients + Drop>(
    alloc: Global,
    count: usize,
) -> (Vec<PromisedHandle<Duty<L, Q>, Stands<L, K, Q, P>>>, bool)
    ensures none { result.0.items ≡ [] }
    ensures room { result.1 ≡ true → vec_capacity result.0 ≡ count }
{
    match Vec::with_capacity(alloc, count) {
        Ok(handles) => (handles, true),
        Err(_) => (Vec::new(alloc), false),
    }
}

/// Lets an onlooker look until the end is asked for, or there is nothing for it to do.
fn look_on<L: DeskName, B: Onlooker<L>, E: Closing, T: Wait + Clock>(
    rt: &T,
    alloc: Global,
    closing: &E,
    mut onlooker: B,
) -> B
    ensures { LooksOn (B.seat onlooker) (B.seat result) }
{
    for _ in rt.forever() {
        if closing.is_asked() || !onlooker.attend(rt, alloc) {
            return onlooker;
        }
    }
    unreachable!()
}

/// What duties leave, and who looked on.
#[derive(Drop)]
pub struct Stood<L: DeskName, Q, B> {
    /// What the duties of the first posts leave, in their order.
    pub duties: Vec<Duty<L, Q>>,
    /// Whether these are all.
    pub all_begun: bool,
    /// The onlooker.
    pub onlooker: B,
}

/// Serves the clients that come to each of these posts, each post in a thread of its own, until the end is asked for, a port
/// is lost or a request can't be kept; then all end. Where no thread can be started for a post, or there is no memory for it, it
/// asks for the end, and this post and those behind it are let go. There is room for what the duties leave. Meanwhile the onlooker
/// is attended to in this thread.
pub fn stand_all<
    'a,
    L: DeskName + Send + Sync,
    Q: Send + Drop,
    X: Send + Drop,
    K: Keeper<L, Committer = Q, Text = X> + Send + Sync,
    I: Source + Send + Drop,
    O: Sink + Send + Drop,
    G: Send + Drop,
    C: Client<Reader = I, Writer = O, Gone = G> + Send + Drop,
    P: Clients<Each = C> + Send + Drop,
    B: Onlooker<L> + Drop,
    E: Closing + Sync,
    T: Threads + Wait + Clock + Eprint + Sync,
>(
    rt: &T,
    alloc: Global,
    context: &SessionContext<'a, L, K, OpenGate, T>,
    closing: &E,
    posts: Vec<Post<L, Q, P>>,
    duties: Vec<Duty<L, Q>>,
    onlooker: B,
) -> Stood<L, Q, B>
    requires empty { vec_len duties ≡ 0 }
    requires room { vec_len posts ≤ vec_capacity duties }
    ensures on_duty { AreOnDuty K.kept (take (vec_len result.duties) (map (λ post. P.coming post.port) posts.items))
        (take (vec_len result.duties) (map (λ post. post.sitting) posts.items)) (map (λ duty. duty.sitting) result.duties.items)
        (map (λ duty. duty.is_port_lost) result.duties.items) }
    ensures count { vec_len result.duties ≤ vec_len posts }
    ensures all { result.all_begun ≡ true → vec_len result.duties ≡ vec_len posts }
    ensures failed { All (λ duty. TellsFailure K.failed duty.sitting) result.duties.items }
    ensures looks { LooksOn (B.seat onlooker) (B.seat result.onlooker) }
{
    thread::scope(
        thread::scope_env(),
        rt,
        move |scope| -> Stood<L, Q, B>
            requires { IsSync T.row × IsSend L.row × IsSync L.row × IsSend Q.row × IsSend X.row × IsSend K.row × IsSync K.row × IsSend I.row
                × IsSend O.row × IsSend G.row × IsSend C.row × IsSend P.row × IsSync E.row × (vec_len duties ≡ 0) × (vec_len posts ≤ vec_capacity duties) }
            ensures on_duty { AreOnDuty K.kept (take (vec_len result.duties) (map (λ post. P.coming post.port) posts.items))
                (take (vec_len result.duties) (map (λ post. post.sitting) posts.items)) (map (λ duty. duty.sitting) result.duties.items)
                (map (λ duty. duty.is_port_lost) result.duties.items) }
            ensures count { vec_len result.duties ≤ vec_len posts }
            ensures all { result.all_begun ≡ true → vec_len result.duties ≡ vec_len posts }
            ensures failed { All (λ duty. TellsFailure K.failed duty.sitting) result.duties.items }
            ensures looks { LooksOn (B.seat onlooker) (B.seat result.onlooker) }
        {
            let (mut handles, mut all_begun) = handles_for(alloc, posts.len());
            // What runs in a thread holds each type that it names.
            let types = PhantomData::<(X, I, O, G, C)>;
            for post in posts {
                if !all_begun {
                    continue;
                }
                let stands = Stands(Snapshot::of(&post), PhantomData::<K>);
                let spawned = scope.spawn_with(
                    stands,
                    move || -> Duty<L, Q>
                        requires { IsSync T.row × IsSend L.row × IsSync L.row × IsSend Q.row × IsSend X.row × IsSend K.row × IsSync K.row
                            × IsSend I.row × IsSend O.row × IsSend G.row × IsSend C.row × IsSend P.row × IsSync E.row }
                        ensures duty { IsDuty K.kept (record {
                          coming = P.coming post.port;
                          before = post.sitting;
                          after = result.sitting;
                          lost = result.is_port_lost;
                        }) }
                        ensures failed { TellsFailure K.failed result.sitting }
                    {
                        let _types = types;
                        serve_in_turn(rt, alloc, context, closing, post)
                    },
                );
                match spawned.ok() {
                    Some(handle) => handles.push_reserved(handle),
                    None => {
                        closing.ask(rt);
                        all_begun = false;
                    }
                }
            }
            let onlooker = look_on(rt, alloc, closing, onlooker);
            Stood {
                duties: join_all(rt, handles, duties),
                all_begun,
                onlooker,
            }
        },
    )
}
