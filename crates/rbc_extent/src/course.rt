//! Lines that are lengthened along the locks, leg by leg.

ghost use Rattle.std.specs.Prelude.{◌≡◌, Some, None, IfOk, false, if◌then◌else◌};
ghost use Rattle.rbc_model.specs.Locks.{longer_ahead, longer_back};
ghost use Rattle.rbc_scene_laws.specs.Good.{IsGoodLocks};

use rbc_line::{Line, SectionSet};
use rbc_locks::Locks;
use rbc_model::Memory;
use std::alloc::Global;
use std::marker::Model;

/// A line that is lengthened along the locks, beside the set of its sections: whether a section stands on it is
/// looked up directly.
#[derive(Drop)]
pub struct Course {
    line: Line,
    sections: SectionSet,
}

impl Model for Course {
    ghost use Rattle.rbc_line.specs.OnTracks.{LineOnTrack};
    ghost use Rattle.rbc_extent.specs.Courses.{IsCourse};

    ghost Value = { LineOnTrack };

    ghost view = { λ c. c.line };

    ghost invariant = { λ c. IsCourse c.line c.sections };
}

impl Course {
    /// The line, which can be lengthened.
    pub fn new(alloc: Global, line: Line) -> Result<Course, Memory>
        ensures { IfOk result (λ course. course ≡ line) }
    {
        // The track of a line is sound.
        line.known();
        let sections = SectionSet::of(alloc, &line)?;
        Ok(Course { line, sections })
    }

    /// The line as it is now.
    pub fn line(&self) -> &Line
        ensures line { result.now ≡ self.now }
    {
        &self.line
    }

    /// The line as it is now, with which the course ends.
    pub fn into_line(self) -> Line
        ensures { result ≡ self }
    {
        self.line
    }

    /// Puts the leg that is locked behind the last one behind it. Tells whether there is such a leg, whose section
    /// does not stand on the line yet; where there is none the line stays as it is.
    pub fn lengthen_ahead(&mut self, locks: &Locks) -> Result<bool, Memory>
        requires { IsGoodLocks self.old.track locks.now }
        ensures track { self.new.track ≡ self.old.track }
        ensures longer { IfOk result (λ longer.
            (if longer then Some self.new.legs else None) ≡ longer_ahead locks.now self.old.legs) }
        ensures stays { IfOk result (λ longer. longer ≡ false → self.new ≡ self.old) }
    {
        let Some(leg) = locks.next(self.line.last()) else {
            return Ok(false);
        };
        let leg = &leg;
        if self.sections.has(leg.section) {
            return Ok(false);
        }
        self.line.extend(*leg)?;
        self.sections.insert(leg.section);
        Ok(true)
    }

    /// Puts the leg that the first one is locked behind in front of it. Tells whether there is such a leg, whose
    /// section does not stand on the line yet; where there is none the line stays as it is.
    pub fn lengthen_back(&mut self, locks: &Locks) -> Result<bool, Memory>
        requires { IsGoodLocks self.old.track locks.now }
        ensures track { self.new.track ≡ self.old.track }
        ensures longer { IfOk result (λ longer.
            (if longer then Some self.new.legs else None) ≡ longer_back locks.now self.old.legs) }
        ensures stays { IfOk result (λ longer. longer ≡ false → self.new ≡ self.old) }
    {
        let Some(leg) = locks.prev(self.line.first()) else {
            return Ok(false);
        };
        let leg = &leg;
        if self.sections.has(leg.section) {
            return Ok(false);
        }
        self.line.extend_front(*leg)?;
        self.sections.insert(leg.section);
        Ok(true)
    }
}
