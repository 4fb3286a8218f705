//! Journals over a file that is torn at each of its calls, or fails there; and over a file of the system.

ghost use Rattle.std.specs.Prelude.{◌≡◌, [], OnOk, IfOk};
ghost use Rattle.rbc_journal.specs.Device.{Only};
ghost use Rattle.rbc_journal.specs.Journal.{recovered};
ghost use Rattle.rbc_journal.specs.Settled.{IsSettled, staged};

use rbc_journal::{Device, Journal, is_told, new_file, next_told, read, track_digest};
use rbc_journal_file::{Calls, JournalPaths, OpenFault, Recorded, open};
use std::alloc::{AllocError, Global};
use std::test::Fail;
use std::{fs, io};

/// The bytes of the track of all these journals.
const TRACK: &[u8] = b"a track";

/// What was asked of a file: an offset and the bytes that were written there; a sync; or the bytes of a new file in its
/// place.
#[derive(Drop)]
pub(super) enum Call {
    Write(usize, Vec<u8>),
    Sync,
    Replace(Vec<u8>),
}

/// A file that remembers what it was asked, and fails at the call of a number.
#[derive(Drop)]
pub(super) struct Noted {
    pub(super) alloc: Global,
    pub(super) calls: Vec<Call>,
    pub(super) fails_at: usize,
}

impl Noted {
    fn note(&mut self, call: Call) -> io::Result<()> {
        if self.calls.len() == self.fails_at || self.calls.push(call).is_err() {
            return Err(io::ErrorKind::Other.into());
        }
        Ok(())
    }
}

impl Calls for Noted {
    fn write(&mut self, at: u64, bytes: &[u8]) -> io::Result<()> {
        let Ok(bytes) = bytes.to_vec(self.alloc) else {
            return Err(io::ErrorKind::OutOfMemory.into());
        };
        self.note(Call::Write(at as usize, bytes))
    }

    fn sync(&mut self) -> io::Result<()> {
        self.note(Call::Sync)
    }

    fn replace(&mut self, front: &[u8], rest: &[u8]) -> io::Result<()> {
        let Ok(mut bytes) = front.to_vec(self.alloc) else {
            return Err(io::ErrorKind::OutOfMemory.into());
        };
        if bytes.extend_from_slice(rest).is_err() {
            return Err(io::ErrorKind::OutOfMemory.into());
        }
        self.note(Call::Replace(bytes))
    }
}

/// The image after a call, of which a number of bytes were written as asked, and others as this byte, or not at all. A new
/// file takes the old one's place whole, if any byte was written.
fn apply(
    image: &mut Vec<u8>,
    call: &Call,
    whole: usize,
    other: Option<u8>,
) -> Result<(), AllocError> {
    match call {
        Call::Sync => Ok(()),
        Call::Replace(bytes) => {
            if whole > 0 {
                image.clear();
                image.extend_from_slice(bytes.as_slice())?;
            }
            Ok(())
        }
        Call::Write(at, bytes) => {
            let mut at = *at;
            let mut count = 0usize;
            for byte in bytes {
                let put = if count < whole { Some(*byte) } else { other };
                if let Some(put) = put {
                    if at < image.len() {
                        image[at] = put;
                    } else {
                        image.push(put)?;
                    }
                }
                at = at.saturating_add(1);
                count = count.saturating_add(1);
            }
            Ok(())
        }
    }
}

/// The lines that an image tells, each with a line feed. It is read as whole or as cut, and never as damaged.
pub(super) fn lines_in(alloc: Global, image: &[u8]) -> Result<Vec<u8>, Fail> {
    let Ok(file) = read(image, &track_digest(TRACK)) else {
        return Err("no crash damages a file".into());
    };
    let mut lines = Vec::new(alloc);
    let mut rest = file.text;
    for _ in 0..image.len() {
        let Some((_, line, after)) = next_told(rest) else {
            break;
        };
        lines.extend_from_slice(line)?;
        lines.push(b'\n')?;
        rest = after;
    }
    Ok(lines)
}

/// The bytes of a new journal.
pub(super) fn new_journal(alloc: Global) -> Result<Vec<u8>, AllocError>
    ensures { IfOk result (λ file. recovered file.items ≡ []) }
{
    new_file(alloc, &track_digest(TRACK))
}

/// Opens a journal over a file that stands for what these bytes tell. None where the file fails.
pub(super) fn opened<D: Device + Drop>(
    alloc: Global,
    bytes: &[u8],
    device: D,
) -> Result<Result<Journal<D>, D>, Fail>
    requires same { recovered (D.seen device) ≡ recovered bytes.now }
    requires durable { Only (D.seen device) (D.may_leave device) }
    ensures settled { IfOk result (λ tried. IfOk tried (λ journal. IsSettled D.seen D.may_leave journal)) }
    ensures staged { IfOk result (λ tried. IfOk tried (λ journal. staged journal ≡ [])) }
    ensures same { IfOk result (λ tried. IfOk tried (λ journal. recovered (D.seen journal.device) ≡ recovered bytes.now)) }
{
    let Ok(file) = read(bytes, &track_digest(TRACK)) else {
        return Err("a journal can go on from it".into());
    };
    Ok(match Journal::open(alloc, file.text, &file.seal, device) {
        Ok(journal) => Ok(journal),
        Err((_, device)) => Err(device),
    })
}

/// Stages a line.
fn stage<D: Device>(journal: &mut Journal<D>, line: &[u8]) -> Result<(), Fail>
    requires { IsSettled D.seen D.may_leave journal.old }
    ensures { OnOk result (IsSettled D.seen D.may_leave journal.new) }
{
    if !is_told(line) || journal.reserve(line.len()).is_err() {
        return Err("it is a line, and there is room".into());
    }
    journal.stage(line);
    Ok(())
}

/// Opens an image, adds lines to it in one put, and tells what was asked of the file.
fn calls_of(
    alloc: Global,
    image: &[u8],
    lines: [&[u8]; 2],
    fails_at: usize,
) -> Result<(Vec<Call>, bool), Fail> {
    let noted = Noted {
        alloc,
        calls: Vec::new(alloc),
        fails_at,
    };
    let device = Recorded::opened(noted, image);
    let mut journal = match opened(alloc, image, device)? {
        Ok(journal) => journal,
        Err(device) => return Ok((device.into_calls().calls, false)),
    };
    let [first, second] = lines;
    stage(&mut journal, first)?;
    stage(&mut journal, second)?;
    let is_done = journal.commit().is_ok();
    Ok((journal.into_device().into_calls().calls, is_done))
}

/// The lines of an image and then these, as text.
fn with_lines(alloc: Global, image: &[u8], lines: &[&[u8]]) -> Result<Vec<u8>, Fail> {
    let mut text = lines_in(alloc, image)?;
    for line in lines {
        text.extend_from_slice(line)?;
        text.push(b'\n')?;
    }
    Ok(text)
}

/// What a file holds by these calls, and no further one.
pub(super) fn image_of(alloc: Global, start: &[u8], calls: &[Call]) -> Result<Vec<u8>, AllocError> {
    let mut image = start.to_vec(alloc)?;
    for call in calls {
        apply(&mut image, call, usize::MAX, None)?;
    }
    Ok(image)
}

/// The file of a journal with so many puts of two lines.
fn file_of(alloc: Global, puts: usize) -> Result<Vec<u8>, Fail> {
    let mut file = new_journal(alloc)?;
    for _ in 0..puts {
        let (calls, _) = calls_of(alloc, file.as_slice(), EARLIER, usize::MAX)?;
        file = image_of(alloc, file.as_slice(), calls.as_slice())?;
    }
    Ok(file)
}

const EARLIER: [&[u8]; 2] = [b"lock R1", b"ask 7"];

const LINES: [&[u8]; 2] = [b"lock R3", b"ask 12"];

/// How many calls an opening and a commit are: the new file; and two writes, each with its sync.
const CALLS: usize = 5;

// Each call of an opening and a commit is torn, byte for byte, and what was not written is missing, or any of these: in a
// new file, and in one with two puts.
#[test]
fn a_crash_leaves_the_lines_before_or_after(rt: HostRuntime) -> Result<(), Fail> {
    let alloc = rt.alloc();
    for puts in [0usize, 2] {
        let start = file_of(alloc, puts)?;
        let start = start.as_slice();
        let (calls, is_done) = calls_of(alloc, start, LINES, usize::MAX)?;
        assert!(rt; is_done);
        assert_eq!(rt; calls.len(), CALLS);
        let before = lines_in(alloc, start)?;
        let after = with_lines(alloc, start, LINES.as_slice())?;
        for count in 0..calls.len() {
            for whole in 0..40usize {
                for other in [None, Some(b' '), Some(b'\n'), Some(b'#'), Some(0u8)] {
                    let mut image = image_of(alloc, start, &calls[..count])?;
                    apply(&mut image, &calls[count], whole, other)?;
                    let lines = lines_in(alloc, image.as_slice())?;
                    assert!(rt; lines == before || lines == after);
                }
            }
        }
        let image = image_of(alloc, start, calls.as_slice())?;
        assert_eq!(rt;
            lines_in(alloc, image.as_slice())?.as_slice(),
            after.as_slice()
        );
    }
    Ok(())
}

// A file that fails is asked for nothing more.
#[test]
fn a_failed_file_is_left_alone(rt: HostRuntime) -> Result<(), Fail> {
    let alloc = rt.alloc();
    let start = file_of(alloc, 1)?;
    for fails_at in 0..CALLS {
        let (calls, is_done) = calls_of(alloc, start.as_slice(), LINES, fails_at)?;
        assert!(rt; !is_done);
        assert_eq!(rt; calls.len(), fails_at);
    }
    Ok(())
}

/// Opens a journal, and puts a line into it.
fn put<D: Device + Drop>(alloc: Global, bytes: &[u8], device: D, line: &[u8]) -> Result<(), Fail>
    requires same { recovered (D.seen device) ≡ recovered bytes.now }
    requires durable { Only (D.seen device) (D.may_leave device) }
{
    let Ok(mut journal) = opened(alloc, bytes, device)? else {
        return Err("a new file takes its place".into());
    };
    if !is_told(line) || journal.put(line).is_err() {
        return Err("it is a line, and it is put".into());
    }
    Ok(())
}

// A file of the system is made, has the lines that were put into it, and is one journal at a time.
#[test]
fn a_file_is_one_journal_at_a_time(rt: HostRuntime) -> Result<(), Fail> {
    const PATH: &str = "rbc_journal_test.txt";
    let alloc = rt.alloc();
    let _ = fs::remove_file(&rt, PATH);
    let place = JournalPaths::at(&rt, PATH)?;
    for line in LINES {
        let Ok(found) = open(&rt, &place) else {
            return Err("it is opened".into());
        };
        let made = new_journal(alloc)?;
        let bytes = found.bytes().unwrap_or(made.as_slice());
        assert!(rt; found.bytes().is_none() || matches!(open(&rt, &place), Err(OpenFault::InUse)));
        let Some((_gate, text)) = bytes.split_last() else {
            return Err("it has a closed gate".into());
        };
        let Ok(file) = found.replaced(&rt, text, b"") else {
            return Err("a new file takes its place".into());
        };
        put(alloc, bytes, Recorded::opened(file, bytes), line)?;
    }
    let bytes = fs::read(&rt, PATH)?;
    assert_eq!(rt;
        lines_in(alloc, bytes.as_slice())?.as_slice(),
        b"lock R3\nask 12\n".as_slice()
    );
    assert!(rt; !fs::exists(&rt, "rbc_journal_test.txt.new")?);
    fs::remove_file(&rt, PATH)?;
    Ok(())
}
