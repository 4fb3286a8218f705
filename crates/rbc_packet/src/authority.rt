//! What message 3 says to one train.

ghost use Rattle.std.specs.Prelude.{◌≡◌, ◌≤◌, ◌%◌, ◌==◌};
ghost use Rattle.std.specs.List.{list_all};
ghost use Rattle.rbc_model.specs.declared.places.Format.TheVariants.{Far};
ghost use Rattle.rbc_model.specs.Messages.{authority_of, is_writable, IsAuthority};

use rbc_model::scales::{is_expressible, unit_of};
use rbc_model::{Format, GroupName};
use rbc_steps::{Grade, Level, Profile, Speed};
use std::marker::Model;

/// What message 3 says to one train: the time of its report, the balise group that distances count from, whether the
/// train runs in that group's nominal direction, how far it may run, at which speeds and over which gradients (ERA
/// SUBSET-026 3.6.0, section 3.8).
#[derive(Drop)]
pub struct Authority {
    time: u32,
    group: GroupName,
    nominal: bool,
    speeds: Profile<Speed>,
    grades: Profile<Grade>,
}

impl Model for Authority {
    ghost use Rattle.std.specs.Prelude.{◌≡◌};
    ghost use Rattle.rbc_model.specs.declared.places.Format.TheVariants.{Far};
    ghost use Rattle.rbc_model.specs.Messages.{Authority, IsAuthority};
    ghost use Rattle.rbc_packet.specs.Authorities.{authority_with};

    ghost Value = { Authority };

    ghost view = { λ a. authority_with a.time a.group a.nominal a.speeds a.grades };

    ghost invariant = { λ a. IsAuthority Far (authority_with a.time a.group a.nominal a.speeds a.grades)
        × (a.grades.end ≡ a.speeds.end) };
}

impl Authority {
    /// The authority with these parts: `time` is that of the train's report, in the train's own count, and `nominal`
    /// whether the train runs in the group's nominal direction. None where the profiles do not end at one metre, or
    /// where a message can't give them: its ends are each metre up to 32,000 m and then multiples of ten metres up to
    /// 80,000 m, and beyond 32,000 m steps start at multiples of ten metres too.
    #[inline(always)]
    pub fn new(
        time: u32,
        group: GroupName,
        nominal: bool,
        speeds: Profile<Speed>,
        grades: Profile<Grade>,
    ) -> Option<Authority>
        ensures { result ≡ authority_of time group nominal speeds grades }
    {
        // An authority keeps what is known of both profiles.
        speeds.known();
        grades.known();
        if !end_together(&speeds, &grades) || !is_writable(&speeds) || !is_writable(&grades) {
            return None;
        }
        Some(Authority {
            time,
            group,
            nominal,
            speeds,
            grades,
        })
    }

    /// A copy of the authority, which takes no memory.
    pub fn copy(&self) -> Authority
        ensures { result ≡ self.now }
    {
        Authority {
            time: self.time,
            group: self.group,
            nominal: self.nominal,
            speeds: self.speeds.copy(),
            grades: self.grades.copy(),
        }
    }

    /// The time of the train's report (T_TRAIN), 0 to 4,294,967,295, in the train's own count.
    pub fn time(&self) -> u32
        ensures { result ≡ self.now.time }
    {
        self.time
    }

    /// The balise group that distances count from: its country or region (NID_C) is 0 to 1,023, its number there
    /// (NID_BG) 0 to 16,382.
    pub fn group(&self) -> GroupName
        ensures { result ≡ self.now.group }
    {
        self.group
    }

    /// Whether the train runs in the group's nominal direction (Q_DIR).
    pub fn nominal(&self) -> bool
        ensures { result ≡ self.now.nominal }
    {
        self.nominal
    }

    /// How many metres from the group the train may run (L_ENDSECTION): 1 to 32,000, or a multiple of ten from 32,010 to
    /// 80,000.
    pub fn end(&self) -> u32
        ensures { result ≡ self.now.end }
    {
        self.speeds.end()
    }

    /// Message 3 can give it. This does nothing.
    pub fn known(&self)
        ensures { IsAuthority Far self.now }
    {
        let _ = &self.time;
    }

    /// The speeds from the group to the end.
    pub fn speeds(&self) -> &Profile<Speed>
        ensures steps { result.now.steps ≡ self.now.speeds }
        ensures end { result.now.end ≡ self.now.end }
    {
        &self.speeds
    }

    /// The gradients from the group to the end.
    pub fn grades(&self) -> &Profile<Grade>
        ensures steps { result.now.steps ≡ self.now.grades }
        ensures end { result.now.end ≡ self.now.end }
    {
        &self.grades
    }
}

/// Whether the profiles end at one metre.
fn end_together(speeds: &Profile<Speed>, grades: &Profile<Grade>) -> bool
    ensures { result ≡ (grades.now.end == speeds.now.end) }
{
    grades.end() == speeds.end()
}

/// Whether a message can give the profile: its end, and the start of each step in the units of that end.
fn is_writable<V: Level>(profile: &Profile<V>) -> bool
    ensures { result ≡ is_writable profile.now }
{
    let end = profile.end();
    is_expressible(Format::Far, end) && start_in_units(profile.steps(), unit_of(end))
}

/// Whether each step starts at a multiple of the unit, at least 1, in metres.
fn start_in_units<V: Level>(steps: &[(u32, V)], unit: u32) -> bool
    requires { 1 ≤ unit }
    ensures { result ≡ list_all (λ step. step.0 % unit == 0) steps.now }
{
    steps.iter().all(|step| step.0 % unit == 0)
}
