//! Seats that write to one journal, over a file that may fail: four of them, each in a thread of its own, and one that brings
//! many lines.

ghost use Rattle.std.specs.Prelude.{◌≡◌, ◌<◌, ◌≤◌, ◌+◌, ◌^◌, [], length, IfSome, OnOk};
ghost use Rattle.std.specs.Thread.{IsSend, IsSync};
ghost use Rattle.rbc_journal.specs.Journal.{recovered};
ghost use Rattle.rbc_journal.specs.Settled.{IsSettled, staged};

use super::journals::{Call, Noted, image_of, lines_in, new_journal, opened};
use rbc_group_commit::{
    BlankStamps, CommitName, Committer, EntryLine, GroupCommit, Start, ToldHistory,
};
use rbc_journal::{Device, is_told};
use rbc_journal_file::Recorded;
use std::alloc::{AllocError, Global};
use std::marker::Brand;
use std::sync::Wait;
use std::test::Fail;
use std::thread::{Threads, join};

/// How many lines each seat keeps.
const LINES: u64 = 25;

/// Whoever was told anything knows that any line may stand at any place.
#[derive(Drop)]
struct Anything;

impl ToldHistory for Anything {
    ghost use Rattle.std.specs.Prelude.{⊤};

    ghost tells = { λ _ _ _. ⊤ };

    fn hear(&mut self, _other: &Self) {}
}

/// The line at a place: its number.
fn line_at(alloc: Global, place: u64) -> Result<Vec<u8>, AllocError> {
    let digits = [b'0' + (place / 10 % 10) as u8, b'0' + (place % 10) as u8];
    digits.to_vec(alloc)
}

/// The line of the entry at a place: its number, filled up to this number of bytes. None where it is no line, or there is no memory.
fn entry_at(alloc: Global, place: u64, bytes: usize) -> Option<EntryLine<Anything>>
    requires { place + 1 < 2 ^ 64 }
    ensures { IfSome result (λ line. line ≡ place) }
{
    let mut text = line_at(alloc, place).ok()?;
    for _ in text.len()..bytes {
        text.push(b'x').ok()?;
    }
    if !is_told(text.as_slice()) || text.len() > 4_096 {
        return None;
    }
    Some(EntryLine::new(Anything, place, text, None))
}

/// Lays the line at a place, of this number of bytes.
fn lay_at<N: CommitName, R: Wait>(
    rt: &R,
    alloc: Global,
    group_commit: &GroupCommit<Anything, Recorded<Noted>, N>,
    place: u64,
    bytes: usize,
) -> Result<(), Fail>
    requires { place + 1 < 2 ^ 64 }
{
    let Some(line) = entry_at(alloc, place, bytes) else {
        return Err("it is a line".into());
    };
    group_commit.lay(rt, line);
    Ok(())
}

/// Keeps the lines at every fourth place from this one on, up to the first that is not kept. Tells how many were.
fn keep_some<D: Device, N: CommitName, R: Wait>(
    rt: &R,
    alloc: Global,
    group_commit: &GroupCommit<Anything, D, N>,
    mut committer: Committer<N>,
    first: u64,
) -> u64
    requires { first < 4 }
{
    for turn in 0..LINES {
        let place = 4 * turn + first;
        let Some(line) = entry_at(alloc, place, 2) else {
            return turn;
        };
        group_commit.lay(rt, line);
        if group_commit.keep(rt, &mut committer, place).is_err() {
            return turn;
        }
    }
    LINES
}

/// Two seats, side by side.
fn keep_two<D: Device + Send, N: CommitName + Send + Sync, R: Threads + Wait + Sync>(
    rt: &R,
    alloc: Global,
    group_commit: &GroupCommit<Anything, D, N>,
    committers: (Committer<N>, Committer<N>),
    first: u64,
) -> (u64, u64)
    requires { first < 3 }
{
    let (left, right) = committers;
    join(
        rt,
        move || -> u64
            requires { IsSync R.row × IsSend D.row × IsSend N.row × IsSync N.row × (first < 3) }
        { keep_some(rt, alloc, group_commit, left, first) },
        move || -> u64
            requires { IsSync R.row × IsSend D.row × IsSend N.row × IsSync N.row × (first < 3) }
        { keep_some(rt, alloc, group_commit, right, first + 1) },
    )
}

/// A new journal that seats write to.
#[derive(Drop)]
struct Bench<N: CommitName> {
    file: Vec<u8>,
    group_commit: GroupCommit<Anything, Recorded<Noted>, N>,
    committers: Vec<Committer<N>>,
}

/// A new journal over a file that fails at the call of a number, with this number of committers.
fn new_bench<N: CommitName, R: Wait>(
    rt: &R,
    alloc: Global,
    fails_at: usize,
    count: usize,
    blank: BlankStamps,
) -> Result<Bench<N>, Fail>
    requires book { blank ≡ N.book }
    requires few { count ≤ 72 }
{
    let noted = Noted {
        alloc,
        calls: Vec::new(alloc),
        fails_at,
    };
    let file = new_journal(alloc)?;
    let device = Recorded::opened(noted, file.as_slice());
    let Ok(journal) = opened(alloc, file.as_slice(), device)? else {
        return Err("a new file takes its place".into());
    };
    let start = Start {
        journal,
        told: Anything,
        lines: 0,
    };
    let opened = GroupCommit::<Anything, Recorded<Noted>, N>::open(rt, alloc, start, count, blank);
    let Ok((group_commit, committers)) = opened else {
        return Err("there is room".into());
    };
    Ok(Bench {
        file,
        group_commit,
        committers,
    })
}

/// Four seats keep their lines, over a file that fails at the call of a number. How many each kept, and the file's lines.
fn kept_by_four<N: CommitName + Send + Sync, R: Threads + Wait + Sync>(
    rt: &R,
    alloc: Global,
    fails_at: usize,
    blank: BlankStamps,
) -> Result<([u64; 4], Vec<u8>), Fail>
    requires { blank ≡ N.book }
{
    let Bench {
        file,
        group_commit,
        mut committers,
    } = new_bench::<N, R>(rt, alloc, fails_at, 4, blank)?;
    let (Some(d), Some(c), Some(b), Some(a)) = (
        committers.pop(),
        committers.pop(),
        committers.pop(),
        committers.pop(),
    ) else {
        return Err("there are four committers".into());
    };
    let shared = &group_commit;
    let ((a, b), (c, d)) = join(
        rt,
        move || -> (u64, u64)
            requires { IsSync R.row × IsSend N.row × IsSync N.row }
        { keep_two(rt, alloc, shared, (a, b), 0) },
        move || -> (u64, u64)
            requires { IsSync R.row × IsSend N.row × IsSync N.row }
        { keep_two(rt, alloc, shared, (c, d), 2) },
    );
    let (device, _told) = group_commit.close().into_parts();
    let image = image_of(alloc, file.as_slice(), device.into_calls().calls.as_slice())?;
    Ok(([a, b, c, d], lines_in(alloc, image.as_slice())?))
}

// Each line stands at its place, though four seats lay them in any order. Where the file fails all seats end, and what was
// kept is in the file.
#[test]
fn lines_are_kept_at_their_places(rt: HostRuntime) -> Result<(), Fail> {
    let alloc: Global = rt.alloc();
    let mut all = Vec::new(alloc);
    for place in 0..4 * LINES {
        all.extend_from_slice(line_at(alloc, place)?.as_slice())?;
        all.push(b'\n')?;
    }
    let (kept, lines) = kept_by_four::<Brand, _>(&rt, alloc, usize::MAX, BlankStamps::new())?;
    assert_eq!(rt; kept, [LINES; 4]);
    assert!(rt; lines == all);
    for fails_at in [1usize, 2, 3, 4, 5, 20, 33, 50, 68] {
        let (kept, lines) = kept_by_four::<Brand, _>(&rt, alloc, fails_at, BlankStamps::new())?;
        assert!(rt; all.as_slice().starts_with(lines.as_slice()));
        let mut seat = 0u64;
        for count in kept {
            // The last line that it kept stands at this place.
            let place = count
                .saturating_sub(1)
                .saturating_mul(4)
                .saturating_add(seat);
            let bytes = place.saturating_add(1).saturating_mul(3);
            assert!(rt; count < LINES);
            assert!(rt; count == 0 || bytes <= lines.len() as u64);
            seat = seat.saturating_add(1);
        }
    }
    Ok(())
}

/// One seat lays the lines of so many places, the last one first, and then keeps each. How many it kept, what was asked of the
/// file, and the file's lines.
fn kept_by_one<N: CommitName, R: Wait>(
    rt: &R,
    alloc: Global,
    count: u64,
    bytes: usize,
    blank: BlankStamps,
) -> Result<(u64, Vec<Call>, Vec<u8>), Fail>
    requires { blank ≡ N.book }
{
    let Bench {
        file,
        group_commit,
        mut committers,
    } = new_bench::<N, R>(rt, alloc, usize::MAX, 1, blank)?;
    let Some(mut committer) = committers.pop() else {
        return Err("there is a committer".into());
    };
    for turn in 0..count {
        lay_at(rt, alloc, &group_commit, count - 1 - turn, bytes)?;
    }
    let mut kept = 0u64;
    for place in 0..count {
        if group_commit.keep(rt, &mut committer, place).is_ok() {
            kept = kept.saturating_add(1);
        }
    }
    let (device, _told) = group_commit.close().into_parts();
    let calls = device.into_calls().calls;
    let image = image_of(alloc, file.as_slice(), calls.as_slice())?;
    Ok((kept, calls, lines_in(alloc, image.as_slice())?))
}

// A batch of 64 lines goes in one put, in whatever order they were laid: two writes, each with its sync, behind the opening's call.
#[test]
fn a_batch_is_one_put(rt: HostRuntime) -> Result<(), Fail> {
    let alloc: Global = rt.alloc();
    let mut all = Vec::new(alloc);
    for place in 0..64u64 {
        all.extend_from_slice(line_at(alloc, place)?.as_slice())?;
        all.push(b'\n')?;
    }
    let (kept, calls, lines) = kept_by_one::<Brand, _>(&rt, alloc, 64, 2, BlankStamps::new())?;
    assert_eq!(rt; kept, 64);
    assert_eq!(rt; calls.len(), 5);
    assert!(rt; lines == all);
    Ok(())
}

// A put has room for 73 of the longest lines that have no note. One more goes in a put behind it.
#[test]
fn what_there_is_no_room_for_goes_in_the_next_put(rt: HostRuntime) -> Result<(), Fail> {
    let alloc: Global = rt.alloc();
    for (count, asked) in [(73u64, 5usize), (74, 9)] {
        let (kept, calls, lines) = kept_by_one::<Brand, _>(
            &rt,
            alloc,
            count,
            4_096,
            BlankStamps::new(),
        )?;
        assert_eq!(rt; kept, count);
        assert_eq!(rt; calls.len(), asked);
        assert_eq!(rt; lines.len() as u64, count.saturating_mul(4_097));
    }
    Ok(())
}

/// A seat's line is not kept, since the file fails. Then it lays lines, one of them where a line lies already.
fn laid_in_vain<N: CommitName, R: Wait>(
    rt: &R,
    alloc: Global,
    blank: BlankStamps,
) -> Result<(bool, Vec<Call>), Fail>
    requires { blank ≡ N.book }
{
    let Bench {
        group_commit,
        mut committers,
        ..
    } = new_bench::<N, R>(rt, alloc, 1, 1, blank)?;
    let Some(mut committer) = committers.pop() else {
        return Err("there is a committer".into());
    };
    let mut is_kept = false;
    for place in [5u64, 0] {
        lay_at(rt, alloc, &group_commit, place, 2)?;
    }
    is_kept = is_kept || group_commit.keep(rt, &mut committer, 0).is_ok();
    for place in [5u64, 1] {
        lay_at(rt, alloc, &group_commit, place, 2)?;
        is_kept = is_kept || group_commit.keep(rt, &mut committer, place).is_ok();
    }
    let (device, _told) = group_commit.close().into_parts();
    Ok((is_kept, device.into_calls().calls))
}

// Where the journal has failed, no line waits, none is kept, and the file is asked for nothing more.
#[test]
fn a_line_is_laid_in_vain_behind_a_failure(rt: HostRuntime) -> Result<(), Fail> {
    let (is_kept, calls) = laid_in_vain::<Brand, _>(&rt, rt.alloc(), BlankStamps::new())?;
    assert!(rt; !is_kept);
    assert_eq!(rt; calls.len(), 1);
    Ok(())
}
