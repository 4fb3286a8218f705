//! Replies that are counted in whatever pieces they are written.

use rbc_tally::{Counts, Reader, RefusalKind, Replies, Tally};
use std::time::Duration;

/// Replies of each kind, lines of a grant and of a scene that are none, and one that has not come whole.
const TEXT: &[u8] =
    b"ok 7\ngranted 9999999 50000000 305 1000 NoLink S1+\nmessage 03\nok then\ndone\n\
blocked 2 9 305 NotLocked S2\nrefused Clash S1\nrefused Clash P1\nrefused Strange\nstate 9 1 1\nscene 9\nlocked ok\ndone\nok 8\nok 9";

/// Where the text is cut in two: before it, in a line, at its end, and behind all of it.
const CUTS: &[usize] = &[0, 1, 2, 4, 5, 31, 32, 33, 60, 61, 90, 100, 4_096];

/// What is counted of the text, which comes in two pieces.
fn counted_in_two(at: usize) -> Counts {
    let tally = Tally::new(60_000_000);
    let mut replies = Replies::new();
    let (front, back) = TEXT.split_at(at.min(TEXT.len()));
    replies.pass(front, &tally);
    replies.pass(back, &tally);
    tally.counts()
}

/// What is counted of the text, which comes byte by byte.
fn counted_by_bytes() -> Counts {
    let tally = Tally::new(60_000_000);
    let mut replies = Replies::new();
    for byte in TEXT {
        replies.pass(&[*byte], &tally);
    }
    tally.counts()
}

/// Whether these are the counts of the text.
fn are_of_text(counts: &Counts) -> bool {
    (counts.ok, counts.granted, counts.blocked, counts.shown) == (2, 1, 1, 2)
        && (
            counts.refused_for(RefusalKind::Clash),
            counts.refused_for(RefusalKind::Other),
        ) == (2, 1)
        && (counts.all_refused(), counts.entries, counts.entries_left())
            == (3, 50_000_000, 10_000_000)
}

#[test]
fn replies_in_pieces(rt: HostRuntime) {
    for at in CUTS {
        assert!(rt; are_of_text(&counted_in_two(*at)));
    }
    assert!(rt; are_of_text(&counted_by_bytes()));
}

#[test]
fn each_reader_has_a_longest_commit_of_its_own(rt: HostRuntime) {
    let tally = Tally::new(1);
    tally.committed(Duration::from_micros(1_500));
    tally.committed(Duration::from_micros(300));
    assert_eq!(rt;
        tally.take_longest(Reader::Log),
        Duration::from_micros(1_500)
    );
    tally.committed(Duration::from_micros(700));
    assert_eq!(rt; tally.take_longest(Reader::Log), Duration::from_micros(700));
    assert_eq!(rt; tally.take_longest(Reader::Log), Duration::ZERO);
    assert_eq!(rt;
        tally.take_longest(Reader::Page),
        Duration::from_micros(1_500)
    );
    let counts = tally.counts();
    assert_eq!(rt;
        (counts.commits, counts.commit_time),
        (3, Duration::from_micros(2_500))
    );
    assert_eq!(rt; counts.longest_commit, Duration::from_micros(1_500));
}
