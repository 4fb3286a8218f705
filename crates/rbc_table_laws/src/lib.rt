//! What price tables show of profiles: a sound table's last price is below what each profile that fits loses, and the
//! greatest one's is what the best profiles lose. The laws stand in `specs/TableLaws.antt` and `specs/Tracebacks.antt`,
//! and hold of each lawful kind of level.
#![tactic(auto)]

ghost use Rattle.rbc_model.specs.Levels.{speed_levels, grade_levels};
ghost use Rattle.rbc_table_laws.specs.Stretches.{BreaksAreWalked};
ghost use Rattle.rbc_table_laws.specs.TableLaws.{SoundTablesBound, GreatestTablesAreReached};
ghost use Rattle.rbc_table_laws.specs.Tracebacks.{ShortestAreAtBreaks, BestHaveFloors, ChosenAreOne};
ghost use Rattle.rbc_table_laws.specs.Tracebacks.{SearchesAreFound, TablesAreReadable, ReadOffAreChosen};
ghost use Rattle.rbc_table_laws.specs.LeastTables.{GreatestTablesAreOne, LeastPricesAreGreatest, StepsReadAreChosen};

/// The laws of price tables, at speeds and at gradients.
pub fn price_tables_show()
    ensures speeds_bound { SoundTablesBound speed_levels }
    ensures grades_bound { SoundTablesBound grade_levels }
    ensures speeds_reached { GreatestTablesAreReached speed_levels }
    ensures grades_reached { GreatestTablesAreReached grade_levels }
{}

/// What best profiles are: one with the fewest steps has its starts at breaks, each has the floors of its least values,
/// and the chosen one is one alone.
pub fn best_profiles_are()
    ensures speeds_at_breaks { ShortestAreAtBreaks speed_levels }
    ensures grades_at_breaks { ShortestAreAtBreaks grade_levels }
    ensures speeds_floors { BestHaveFloors speed_levels }
    ensures grades_floors { BestHaveFloors grade_levels }
    ensures speeds_one { ChosenAreOne speed_levels }
    ensures grades_one { ChosenAreOne grade_levels }
{}

/// How the chosen profile is read off the greatest sound table, from its last column backwards.
pub fn chosen_profiles_are_read_off()
    ensures speeds_found { SearchesAreFound speed_levels }
    ensures grades_found { SearchesAreFound grade_levels }
    ensures speeds_readable { TablesAreReadable speed_levels }
    ensures grades_readable { TablesAreReadable grade_levels }
    ensures speeds_chosen { ReadOffAreChosen speed_levels }
    ensures grades_chosen { ReadOffAreChosen grade_levels }
{}

/// The greatest sound table is one alone, that of the least prices; and what is read off it is the chosen profile.
pub fn tables_are_computed()
    ensures speeds_one { GreatestTablesAreOne speed_levels }
    ensures grades_one { GreatestTablesAreOne grade_levels }
    ensures speeds_greatest { LeastPricesAreGreatest speed_levels }
    ensures grades_greatest { LeastPricesAreGreatest grade_levels }
    ensures speeds_chosen { StepsReadAreChosen speed_levels }
    ensures grades_chosen { StepsReadAreChosen grade_levels }
{}

/// How the breaks at multiples of a unit are walked from one to the next, by the run that lies there.
pub fn breaks_are_walked()
    ensures speeds { BreaksAreWalked speed_levels }
    ensures grades { BreaksAreWalked grade_levels }
{}
