//! The rule of a history's word, and its one step.

use logbook::{Gain, Plain, Play, Rule};
use rbc_record::Record;

/// The word is the number of moments.
pub struct Law;

impl Rule<Record, u64> for Law {
    ghost use Rattle.std.specs.Prelude.{[]};
    ghost use base.Fml.{ftrue};
    ghost use Rattle.rbc_logbook_laws.specs.Counts.{IsCounted};

    ghost holds = { λ cells moments. IsCounted cells moments };

    ghost first = { [] };

    ghost hinted = { λ n moments. Unit {0} };

    ghost shows = { λ moments. [] };

    ghost keeps = { λ names moments. ftrue };

    ghost moves = { λ ask before after answer. Unit {0} };
}

pub(crate) struct Nothing;

impl Gain<Record, u64> for Nothing {
    ghost use base.Fml.{ftrue};

    ghost after = { λ names about answer. ftrue };
}

/// A step that adds a moment.
pub(crate) struct Add;

impl Play<Record, u64> for Add {
    ghost use Rattle.rbc_logbook_laws.specs.Counts.{Adds};

    ghost then = { Adds };
}

impl Plain<Record, Record, u64> for Add {
    ghost use Rattle.std.specs.Prelude.{None};

    ghost ask = { λ log. log };

    ghost state = { λ log. None };
}
