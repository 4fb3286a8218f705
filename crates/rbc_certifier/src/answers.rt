//! The answer to a line: what it asks for is computed, and printed.

ghost use Rattle.std.specs.Prelude.{◌≡◌, true, ℕ, List, IfOk};
ghost use Rattle.rbc_model.specs.declared.places.Format.TheVariants.{Far};
ghost use Rattle.rbc_model.specs.Kinds.{speed_kind, grade_kind};
ghost use Rattle.rbc_model.specs.Levels.{speed_levels, grade_levels};
ghost use Rattle.rbc_model.specs.Scales.{is_expressible};
ghost use Rattle.rbc_model.specs.StepsReply.{AnswersLine, AnswersRequest};
ghost use Rattle.rbc_streams.specs.Emitting.{Emits};
ghost use Rattle.rbc_words.specs.PriceText.{prices_of};
ghost use Rattle.rbc_words.specs.StepsLines.{request_view, IsRequestInRange};
ghost use Rattle.rbc_certifier.specs.Chosen.{IsChosenFor, AnswersFor};

use rbc_model::{Memory, OrMemory, StepsRefusal};
use rbc_packet::{Encoded, write_profile};
use rbc_reduce::{Priced, Reduced, reduce};
use rbc_steps::{Grade, Runs, Speed};
use rbc_streams::Sink;
use rbc_words::{
    Basis, Spelled, StepsLine, StepsRequest, emit_certified, emit_refusal, parse_steps,
};
use std::alloc::Global;
use std::thread::Threads;

/// Writes the answer to a line.
pub fn answer_line<W: Sink>(rt: &(impl Threads + Sync), alloc: Global, line: &[u8], writer: &mut W)
    ensures { (reply : List ℕ) × AnswersLine Far line.now reply
        × Emits W.written W.failed writer.old writer.new reply }
{
    match parse_steps(alloc, line) {
        Ok(StepsLine::Blank) => {}
        Ok(StepsLine::Speed(request)) => answer_speeds(rt, alloc, request, writer),
        Ok(StepsLine::Grade(request)) => answer_grades(rt, alloc, request, writer),
        Err(OrMemory::Refused(fault)) => emit_refusal(StepsRefusal::BadLine(fault), writer),
        Err(OrMemory::Memory) => emit_refusal(StepsRefusal::Memory, writer),
    }
}

/// Writes the answer to a request for speeds.
fn answer_speeds<W: Sink>(
    rt: &(impl Threads + Sync),
    alloc: Global,
    request: StepsRequest<Speed>,
    writer: &mut W,
)
    requires in_range { IsRequestInRange speed_levels (request_view request) }
    ensures { (reply : List ℕ) × AnswersRequest speed_kind (request_view request) reply
        × Emits W.written W.failed writer.old writer.new reply }
{
    let StepsRequest { limit, runs, end } = request;
    match Runs::new(runs, end) {
        Ok(track) => {
            let chosen = reduce(rt, alloc, &track, limit);
            emit_chosen(alloc, limit, &track, &chosen, writer);
        }
        Err(fault) => emit_refusal(StepsRefusal::from(fault), writer),
    }
}

/// Writes the answer to a request for gradients.
fn answer_grades<W: Sink>(
    rt: &(impl Threads + Sync),
    alloc: Global,
    request: StepsRequest<Grade>,
    writer: &mut W,
)
    requires in_range { IsRequestInRange grade_levels (request_view request) }
    ensures { (reply : List ℕ) × AnswersRequest grade_kind (request_view request) reply
        × Emits W.written W.failed writer.old writer.new reply }
{
    let StepsRequest { limit, runs, end } = request;
    match Runs::new(runs, end) {
        Ok(track) => {
            let chosen = reduce(rt, alloc, &track, limit);
            emit_chosen(alloc, limit, &track, &chosen, writer);
        }
        Err(fault) => emit_refusal(StepsRefusal::from(fault), writer),
    }
}

/// Writes what was chosen for a track, with its certificate and its packet, or that memory was refused. It is large, and
/// stays where it is. `V` is spelled in lines as the kind of level that stands in its packet.
fn emit_chosen<V: Spelled + Encoded + Priced, W: Sink>(
    alloc: Global,
    limit: usize,
    track: &Runs<V>,
    chosen: &Result<Reduced<V>, Memory>,
    writer: &mut W,
)
    requires packet { V.kind.packet ≡ V.packet }
    requires expressible { is_expressible Far track.now.end ≡ true }
    requires chosen { IfOk chosen.now
        (λ r. IsChosenFor V.levels limit track.now r.profile r.loss (prices_of r.prices.items)) }
    ensures { (reply : List ℕ) × AnswersFor V.kind V.levels limit track.now reply
        × Emits W.written W.failed writer.old writer.new reply }
{
    let Ok(chosen) = chosen else {
        emit_refusal(StepsRefusal::Memory, writer);
        return;
    };
    let Ok(packet) = write_profile(alloc, &chosen.profile, true) else {
        emit_refusal(StepsRefusal::Memory, writer);
        return;
    };
    let basis = Basis {
        limit,
        track,
        prices: chosen.prices.as_slice(),
    };
    emit_certified(
        &chosen.profile,
        chosen.loss,
        &basis,
        packet.as_slice(),
        writer,
    );
}
