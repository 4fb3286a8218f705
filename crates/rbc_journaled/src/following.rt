//! A line is followed: the record gains the entry that it adds, and no reply is said.

ghost use Rattle.std.specs.Prelude.{◌≡◌, IfOk, OnErr, Ok};
ghost use Rattle.rbc_model.specs.HistoryText.{IsToldOfTrack};
ghost use Rattle.rbc_model.specs.Views.{view};
ghost use Rattle.rbc_sessions.specs.Records.{scene_now};
ghost use Rattle.rbc_session_laws.specs.declared.command.Command.TheVariants.{Event, Authority};
ghost use Rattle.rbc_journaled.specs.Adds.{Follows, FollowsSaid};

use rbc_model::{Memory, OrMemory, Told, TrainId};
use rbc_session_laws::Command;
use rbc_sessions::{Record, View, candidate, command_in, commit};
use std::alloc::Global;
use std::thread::Threads;

/// Treats a line, and tells whether it added an entry. No reply is said.
///
/// # Errors
///
/// The allocator refused memory. Nothing changes.
pub fn follow(
    rt: &(impl Threads + Sync),
    alloc: Global,
    history: &mut Record,
    line: &[u8],
) -> Result<bool, Memory>
    ensures followed { IfOk result (λ is_added. Follows is_added history.old line.now history.new) }
    ensures refused { OnErr result (history.new ≡ history.old) }
{
    match command_in(history.track(), line) {
        Ok(Command::Event(told)) => hear(alloc, history, &told),
        Ok(Command::Authority(number)) => ask(rt, alloc, history, TrainId::new(number)),
        Ok(Command::Nothing) => Ok(false),
        Ok(Command::Show(_)) => Ok(false),
        Err(_) => Ok(false),
    }
}

/// Treats what is told, and tells whether it was added.
///
/// # Errors
///
/// The allocator refused memory. Nothing changes.
fn hear(alloc: Global, history: &mut Record, told: &Told) -> Result<bool, Memory>
    requires { IsToldOfTrack history.old.track told.now }
    ensures followed { IfOk result (λ is_added. FollowsSaid is_added history.old (Event told.now) history.new) }
    ensures refused { OnErr result (history.new ≡ history.old) }
{
    match history.apply(alloc, told) {
        Ok(_receipt) => Ok(true),
        Err(OrMemory::Refused(_)) => Ok(false),
        Err(OrMemory::Memory) => Err(Memory),
    }
}

/// Treats a train that asks for an authority, and tells whether it was granted one.
///
/// # Errors
///
/// The allocator refused memory. Nothing changes.
fn ask(
    rt: &(impl Threads + Sync),
    alloc: Global,
    history: &mut Record,
    train: TrainId,
) -> Result<bool, Memory>
    ensures followed { IfOk result (λ is_added. FollowsSaid is_added history.old (Authority train) history.new) }
    ensures refused { OnErr result (history.new ≡ history.old) }
{
    match history.view(alloc, train) {
        Ok(shown) => grant(rt, alloc, history, shown),
        Err(OrMemory::Refused(_)) => Ok(false),
        Err(OrMemory::Memory) => Err(Memory),
    }
}

/// Grants the train that is shown this view its authority, and tells whether there was room for the entry.
///
/// # Errors
///
/// The allocator refused memory. Nothing changes.
fn grant(
    rt: &(impl Threads + Sync),
    alloc: Global,
    history: &mut Record,
    shown: View,
) -> Result<bool, Memory>
    requires { view history.old.track (scene_now history.old) shown.train ≡ Ok shown }
    ensures followed { IfOk result (λ is_added. FollowsSaid is_added history.old (Authority shown.train) history.new) }
    ensures refused { OnErr result (history.new ≡ history.old) }
{
    history.known();
    let before = history.version();
    let most = history.most().entries() as u64;
    let Ok(candidate) = candidate(rt, alloc, shown, before) else {
        return Err(Memory);
    };
    let _reply = commit(alloc, history, &candidate);
    if history.version() > before {
        Ok(true)
    } else if before >= most {
        Ok(false)
    } else {
        Err(Memory)
    }
}
