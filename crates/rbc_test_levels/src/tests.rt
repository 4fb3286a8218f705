//! The generic crates at all three kinds of level.
ghost use Rattle.std.specs.Prelude.{◌≡◌, ◌%◌, ◌==◌};
ghost use Rattle.rbc_model.specs.Scales.{unit_of};

mod kinds;
mod metres;

use crate::Power;
use kinds::{Kind, level, rows_of, track_of};
use rbc_model::limits::MOST_STEPS;
use rbc_model::scales::unit_of;
use rbc_price::check;
use rbc_reduce::{Reduced, reduce};
use rbc_steps::{Grade, Level, Runs, Speed, one_spelling};
use std::process::Abort;
use std::thread::Threads;

#[test]
fn powers_are_those_of_the_message(rt: HostRuntime) {
    assert!(rt; Power::new(0).is_none() && Power::new(1001).is_none());
    let floors = [(1, 1), (2, 2), (3, 2), (511, 256), (512, 512), (1000, 512)];
    for (number, floor) in floors {
        let power: Power = level(&rt, number);
        assert_eq!(rt; power.floor(), level(&rt, floor));
        assert_eq!(rt; power.expressible(), number == floor);
    }
}

/// Whether the rows are these numbers.
fn rows_are<V: Kind>(
    rt: &(impl Abort + AllocGlobal),
    rows: &[(u32, V)],
    numbers: &[(u32, i16)],
) -> bool {
    rows == rows_of(rt, numbers).as_slice()
}

/// Turns a track of two levels, and puts the turned one behind it. That a track has one spelling is a law without code:
/// what is shown is that it can be called.
fn turn<V: Kind>(rt: &(impl Abort + AllocGlobal), low: i16, high: i16) {
    let mut track: Runs<V> = track_of(rt, &[(0, low), (10, low), (20, high)], 30);
    one_spelling(&track, &track);
    let back = track.reversed(rt.alloc()).expect(rt, "memory");
    assert!(rt; rows_are(rt, back.runs(), &[(0, high), (10, low)]));
    assert!(rt; track.append(&back).is_ok());
    assert!(rt; rows_are(rt, track.runs(), &[(0, low), (20, high), (40, low)]));
}

#[test]
fn tracks_are_turned(rt: HostRuntime) {
    turn::<Speed>(&rt, 83, 85);
    turn::<Grade>(&rt, -3, 12);
    turn::<Power>(&rt, 999, 1000);
    let uphill: Runs<Grade> = track_of(&rt, &[(0, 12), (7, -3)], 9);
    let downhill = uphill.negated(rt.alloc()).expect(&rt, "memory");
    assert!(rt; rows_are(&rt, downhill.runs(), &[(0, -12), (7, 3)]));
}

/// A track, and the profile of at most `limit` steps that it is reduced to, worked out by hand.
struct Reduction {
    limit: usize,
    runs: &'static [(u32, i16)],
    end: u32,
    steps: &'static [(u32, i16)],
    loss: u64,
}

const SPEEDS: &[Reduction] = &[
    Reduction {
        limit: 1,
        runs: &[(0, 160), (10, 83), (20, 120)],
        end: 30,
        steps: &[(0, 80)],
        loss: 1_230,
    },
    Reduction {
        limit: 2,
        runs: &[(0, 160), (10, 83), (20, 120)],
        end: 30,
        steps: &[(0, 160), (10, 80)],
        loss: 430,
    },
    Reduction {
        limit: 3,
        runs: &[(0, 160), (10, 83), (20, 120)],
        end: 30,
        steps: &[(0, 160), (10, 80), (20, 120)],
        loss: 30,
    },
    Reduction {
        limit: 2,
        runs: &[(0, 160), (1_500, 83), (3_300, 120)],
        end: 4_000,
        steps: &[(0, 160), (1_500, 80)],
        loss: 33_400,
    },
];

const GRADIENTS: &[Reduction] = &[
    Reduction {
        limit: 1,
        runs: &[(0, 10), (10, -3), (20, 254)],
        end: 30,
        steps: &[(0, -3)],
        loss: 2_700,
    },
    Reduction {
        limit: 2,
        runs: &[(0, 10), (10, -3), (20, 254)],
        end: 30,
        steps: &[(0, -3), (20, 254)],
        loss: 130,
    },
    Reduction {
        limit: 3,
        runs: &[(0, 10), (10, -3), (20, 254)],
        end: 30,
        steps: &[(0, 10), (10, -3), (20, 254)],
        loss: 0,
    },
];

/// What is lost on the last one needs more than 32 bits.
const POWERS: &[Reduction] = &[
    Reduction {
        limit: 1,
        runs: &[(0, 1000), (10, 600), (20, 999)],
        end: 30,
        steps: &[(0, 512)],
        loss: 4_830_570,
    },
    Reduction {
        limit: 2,
        runs: &[(0, 1), (3, 1000), (7, 511), (9, 512)],
        end: 20,
        steps: &[(0, 1), (3, 256)],
        loss: 3_065_090,
    },
    Reduction {
        limit: 3,
        runs: &[(0, 1), (3, 1000), (7, 511), (9, 512)],
        end: 20,
        steps: &[(0, 1), (3, 512), (7, 256)],
        loss: 1_803_522,
    },
    Reduction {
        limit: 2,
        runs: &[
            (0, 1000),
            (10_000, 600),
            (20_000, 999),
            (30_000, 1),
            (30_001, 999),
        ],
        end: 32_000,
        steps: &[(0, 512), (30_000, 1)],
        loss: 6_821_581_996,
    },
];

/// Whether the track ends at a multiple of the unit in which a message counts its metres.
fn is_whole<V: Kind>(track: &Runs<V>) -> bool
    ensures { result ≡ track.now.end % unit_of track.now.end == 0 }
{
    let end = track.end();
    end % unit_of(end) == 0
}

/// Reduces the track of the numbers, and checks the table that shows that no profile loses less.
fn reduced<V: Kind>(
    rt: &(impl Abort + AllocGlobal + Threads + Sync),
    runs: &[(u32, i16)],
    end: u32,
    limit: usize,
) -> Reduced<V> {
    assert!(rt; 1 <= limit && limit <= MOST_STEPS);
    let track = track_of(rt, runs, end);
    assert!(rt; is_whole(&track));
    let reduced = reduce(rt, rt.alloc(), &track, limit).expect(rt, "memory");
    assert!(rt; check(rt.alloc(), &track, limit, &reduced.profile, &reduced.prices) == Ok(()));
    reduced
}

/// Compares what a track was reduced to with what was worked out.
fn compare<V: Kind>(rt: &(impl Abort + AllocGlobal), reduced: &Reduced<V>, case: &Reduction) {
    let profile = reduced.profile.copy();
    assert!(rt; rows_are(rt, profile.steps(), case.steps));
    for (start, number) in case.steps {
        assert!(rt; *start < profile.end());
        assert!(rt; profile.at(*start) == level(rt, *number));
    }
    assert_eq!(rt; reduced.loss, case.loss);
}

#[test]
fn tracks_are_reduced(rt: HostRuntime) {
    for case in SPEEDS {
        let speeds: Reduced<Speed> = reduced(&rt, case.runs, case.end, case.limit);
        compare(&rt, &speeds, case);
    }
    for case in GRADIENTS {
        let grades: Reduced<Grade> = reduced(&rt, case.runs, case.end, case.limit);
        compare(&rt, &grades, case);
    }
    for case in POWERS {
        let powers: Reduced<Power> = reduced(&rt, case.runs, case.end, case.limit);
        compare(&rt, &powers, case);
    }
}

/// A message counts an end behind 32,000 m in tens, so cuts are at tens: a fall begins where it does or before, and a
/// rise where it does or behind.
#[test]
fn long_tracks_are_cut_at_tens(rt: HostRuntime) {
    const CASES: &[Reduction] = &[
        Reduction {
            limit: 2,
            runs: &[(0, 160), (10_003, 120)],
            end: 40_000,
            steps: &[(0, 160), (10_000, 120)],
            loss: 120,
        },
        Reduction {
            limit: 2,
            runs: &[(0, 120), (10_003, 160)],
            end: 40_000,
            steps: &[(0, 120), (10_010, 160)],
            loss: 280,
        },
    ];
    for case in CASES {
        let speeds: Reduced<Speed> = reduced(&rt, case.runs, case.end, case.limit);
        compare(&rt, &speeds, case);
    }
}

/// Single metres, level and rising in turn, in rows of thousands of prices. Two steps keep the last metre alone.
#[test]
fn long_rows_are_reduced(rt: HostRuntime) {
    let mut runs = Vec::new(rt.alloc());
    for start in 0..2_500u32 {
        runs.push((start, (start % 2) as i16)).expect(&rt, "memory");
    }
    for (limit, loss) in [(1, 1_250), (2, 1_249)] {
        let grades: Reduced<Grade> = reduced(&rt, runs.as_slice(), 2_500, limit);
        assert_eq!(rt; grades.loss, loss);
    }
}

/// Where an allocation is refused it is told, and else the table shows that the answer is best.
#[test]
fn memory_or_the_answer(rt: HostRuntime) {
    let mut rows = Vec::new(rt.alloc());
    for (start, kmh) in [(0, 160), (100, 120), (150, 160)] {
        let _ = rows.push((start, level::<Speed>(&rt, kmh)));
    }
    if let Ok(track) = Runs::new(rows, 300) {
        assert!(rt; is_whole(&track));
        if let Ok(reduced) = reduce(&rt, rt.alloc(), &track, 2) {
            assert!(rt; check(rt.alloc(), &track, 2, &reduced.profile, &reduced.prices) == Ok(()));
        }
    }
}

/// Numbers that look thrown at random: six runs, and where they end.
fn thrown(rt: &(impl Abort + AllocGlobal), seed: u32) -> (Vec<(u32, i16)>, u32) {
    let mut runs = Vec::new(rt.alloc());
    let mut state = seed;
    let mut start = 0u32;
    for _ in 0..6 {
        state = state.wrapping_mul(75).wrapping_add(74) % 65_537;
        runs.push((start, 5 + (state % 41) as i16))
            .expect(rt, "memory");
        start = start.saturating_add(1 + state / 64 % 3);
    }
    (runs, start)
}

/// The least that this number of steps loses on the track of the numbers, wherever they are cut.
fn least_loss<V: Kind>(
    rt: &(impl Abort + AllocGlobal),
    runs: &[(u32, i16)],
    end: u32,
    limit: usize,
) -> u64 {
    let track: Runs<V> = track_of(rt, runs, end);
    let mut levels = Vec::new(rt.alloc());
    for x in 0..track.end() {
        levels.push(track.at(x)).expect(rt, "memory");
    }
    metres::least_loss(levels.as_slice(), limit)
}

#[test]
fn no_cuts_lose_less(rt: HostRuntime) {
    for seed in 0..200 {
        let (runs, end) = thrown(&rt, seed);
        let runs = runs.as_slice();
        let limit = 1 + seed as usize % 4;
        let speeds: Reduced<Speed> = reduced(&rt, runs, end, limit);
        assert_eq!(rt; speeds.loss, least_loss::<Speed>(&rt, runs, end, limit));
        let grades: Reduced<Grade> = reduced(&rt, runs, end, limit);
        assert_eq!(rt; grades.loss, least_loss::<Grade>(&rt, runs, end, limit));
        let powers: Reduced<Power> = reduced(&rt, runs, end, limit);
        assert_eq!(rt; powers.loss, least_loss::<Power>(&rt, runs, end, limit));
    }
}
