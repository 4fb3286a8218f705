//! Two views are equal where they show the same.

ghost use Rattle.std.specs.Prelude.{◌≡◌, ◌↔◌, IsTrue};
ghost use Rattle.std.specs.Cmp.{partial_equiv_from_equiv};
ghost use Rattle.rbc_reach.specs.SameViews.{is_same_view, same_views, tell_the_same_report, have_the_same_places};
ghost use Rattle.rbc_reach.specs.SameViews.{have_the_same_way, have_the_same_speeds, have_the_same_grades};

use crate::View;

impl PartialEq for View {
    ghost eq = { is_same_view };

    ghost laws = { partial_equiv_from_equiv same_views };

    /// Whether the two views show the same.
    fn eq(&self, other: &View) -> bool
        ensures tests { result ≡ is_same_view self.now other.now }
        ensures same { IsTrue result ↔ (self.now ≡ other.now) }
    {
        is_same_view(self, other)
    }
}

impl Eq for View {
    ghost laws = { same_views };
}

/// Whether the two views show the same, part by part.
fn is_same_view(one: &View, other: &View) -> bool
    ensures { result ≡ is_same_view one.now other.now }
{
    tell_the_same_report(one, other)
        && have_the_same_places(one, other)
        && have_the_same_way(one, other)
        && have_the_same_speeds(one, other)
        && have_the_same_grades(one, other)
}

/// Whether both are of one train, with the same last report.
fn tell_the_same_report(one: &View, other: &View) -> bool
    ensures { result ≡ tell_the_same_report one.now other.now }
{
    one.train() == other.train()
        && one.group() == other.group()
        && one.nominal() == other.nominal()
        && one.time() == other.time()
}

/// Whether both have the same places.
fn have_the_same_places(one: &View, other: &View) -> bool
    ensures { result ≡ have_the_same_places one.now other.now }
{
    one.origin() == other.origin()
        && one.start() == other.start()
        && one.front() == other.front()
        && one.to() == other.to()
        && one.end() == other.end()
        && one.reach() == other.reach()
}

/// Whether both have the same legs, with the same obstacle beyond.
fn have_the_same_way(one: &View, other: &View) -> bool
    ensures { result ≡ have_the_same_way one.now other.now }
{
    one.legs() == other.legs() && one.obstacle() == other.obstacle()
}

/// Whether both have the same speeds, and as many steps for them.
fn have_the_same_speeds(one: &View, other: &View) -> bool
    ensures { result ≡ have_the_same_speeds one.now other.now }
{
    one.speed_steps() == other.speed_steps() && one.speeds().runs() == other.speeds().runs()
}

/// Whether both have the same gradients, and as many steps for them.
fn have_the_same_grades(one: &View, other: &View) -> bool
    ensures { result ≡ have_the_same_grades one.now other.now }
{
    one.grade_steps() == other.grade_steps() && one.grades().runs() == other.grades().runs()
}
