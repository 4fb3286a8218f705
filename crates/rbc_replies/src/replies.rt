//! The replies of a session.

ghost use Rattle.std.specs.Prelude.{◌≡◌};
ghost use Rattle.rbc_model.specs.Levels.{speed_levels, grade_levels};
ghost use Rattle.rbc_model.specs.Messages.{message_bytes};
ghost use Rattle.rbc_replies.specs.Certificates.{IsLossOn, speeds_of, grades_of};

use rbc_model::{LineFault, Obstacle, Refusal, TrainId};
use rbc_packet::Authority;
use rbc_steps::{Grade, Speed};
use rbc_track::Name;
use rbc_words::Basis;

/// Why a line of a session is refused.
#[derive(Clone, Copy, Debug, PartialEq, Eq)]
pub enum SessionRefusal {
    /// It is no request.
    BadLine(LineFault),
    /// The track has no route or section of this name.
    UnknownName(Name),
    /// The event that it tells is refused.
    BadEvent(Refusal),
    /// The history has as many entries as it may have.
    Full,
    /// Memory was refused in its treatment.
    Memory,
}

/// What a train is granted. The message is the authority's, and the profiles can be chosen for what they were chosen for.
#[derive(Clone, Copy)]
pub struct ToldGrant<'reply> {
    /// The train's number.
    pub train: TrainId,
    /// How many entries the history has with this one.
    pub version: u64,
    /// Where the authority begins, in metres from the train's group (negative: before the group).
    pub from: i64,
    /// What stands beyond its end.
    pub obstacle: Obstacle,
    /// The authority: how far from the group the train may run, and its profiles.
    pub authority: &'reply Authority,
    /// Message 3, which gives the authority.
    pub message: &'reply [u8],
    /// What the profile of speeds was chosen for: a track from the train's group to the end of its authority.
    pub speeds: Basis<'reply, Speed>,
    /// What the profile of gradients was chosen for, over the same metres.
    pub grades: Basis<'reply, Grade>,
    /// What the profile of speeds loses, summed over the metres, in km/h.
    pub speeds_loss: u64,
    /// What the profile of gradients loses, summed over the metres, in per mille.
    pub grades_loss: u64,
    pub ghost told: { message.now ≡ message_bytes authority.now },
    pub ghost speeds_lost: { IsLossOn speed_levels (speeds_of authority.now) speeds.track.now speeds_loss },
    pub ghost grades_lost: { IsLossOn grade_levels (grades_of authority.now) grades.track.now grades_loss },
}

/// The reply to a line of a session.
#[derive(Clone, Copy)]
pub enum SessionReply<'reply> {
    /// The line has no reply.
    Nothing,
    /// The event is accepted, and the history has this number of entries with it.
    Accepted(u64),
    /// The train is granted an authority.
    Granted(ToldGrant<'reply>),
    /// This train may run no further: this stands in its way, at this distance from its group in metres (negative:
    /// before the group), in a history of this number of entries.
    Blocked(TrainId, Obstacle, i64, u64),
    /// The line is refused.
    Refused(SessionRefusal),
}
