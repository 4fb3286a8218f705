//! Certificates: a track, a profile with what it loses, and the rows of a table of prices.

ghost use Rattle.std.specs.Prelude.{◌≡◌};
ghost use Rattle.rbc_streams.specs.Emitting.{Emits};
ghost use Rattle.rbc_replies.specs.Certificates.{certificate_text, IsLossOn};

use rbc_steps::Profile;
use rbc_streams::Sink;
use rbc_words::{Basis, Spelled};

/// Writes the certificate of a profile.
pub(crate) fn emit_certificate<V: Spelled, W: Sink>(
    profile: &Profile<V>,
    loss: u64,
    basis: &Basis<V>,
    writer: &mut W,
)
    requires { IsLossOn V.levels profile.now basis.now.track.now loss }
    ensures { Emits W.written W.failed writer.old writer.new
        (certificate_text V.kind profile.now.end profile.now.steps basis.now) }
{
    rbc_words::emit_certificate(profile, loss, basis, writer);
}
