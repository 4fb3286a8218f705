//! The commands and what they take.

use crate::help::{CHECK, DECODE, DRAW, JOURNAL, RUN, SHOW, STEPS, TRACK};
use clap::{Arg, ArgAction, Command, value_parser};
use rbc_model::limits::MOST_ENTRIES;
use std::alloc::{AllocError, Global};

/// The command that answers requests for steps.
pub(crate) fn steps<'a>(alloc: Global) -> Command<'a> {
    Command::new(alloc, "steps")
        .about(
            "Answers each request on standard input with a best profile of few steps, its loss and its packet",
        )
        .after_help(STEPS)
}

/// The command that judges certificates.
pub(crate) fn check<'a>(alloc: Global) -> Command<'a> {
    Command::new(alloc, "check")
        .about(
            "Tells of each certificate on standard input whether its prices show that no profile loses less",
        )
        .after_help(CHECK)
}

/// The command that prints messages.
pub(crate) fn decode<'a>(alloc: Global) -> Result<Command<'a>, AllocError> {
    let json = Arg::new(alloc, "json")
        .long("json")
        .help("Prints each as a line of JSON")
        .action(ArgAction::SetTrue);
    Command::new(alloc, "decode")
        .about("Prints each message 3 and packet on standard input field by field, and in words")
        .after_help(DECODE)
        .arg(json)
}

/// The command that draws certificates.
pub(crate) fn draw<'a>(alloc: Global) -> Command<'a> {
    Command::new(alloc, "draw")
        .about(
            "Draws each certificate on standard input, and tells whether its prices show that no profile loses less, as one page of HTML",
        )
        .after_help(DRAW)
}

/// The command that runs a centre.
pub(crate) fn run<'a>(alloc: Global) -> Result<Command<'a>, AllocError> {
    Command::new(alloc, "run")
        .about(
            "Runs a centre on the track of a file: answers reports, locks and requests on standard input",
        )
        .after_help(RUN)
        .arg(track_file(alloc))?
        .arg(history_file(alloc))?
        .arg(scene_file(alloc))?
        .arg(journal_file(alloc))?
        .arg(entries(alloc))
}

/// The command that shows a session.
pub(crate) fn show<'a>(alloc: Global) -> Result<Command<'a>, AllocError> {
    let each = Arg::new(alloc, "each")
        .long("each")
        .help("Writes each line with its number, its reply and the scene that it leads to")
        .action(ArgAction::SetTrue);
    let page = Arg::new(alloc, "page")
        .long("page")
        .help("Writes one page of HTML that draws these lines, with the lines inside")
        .action(ArgAction::SetTrue);
    Command::new(alloc, "show")
        .about(
            "Writes as lines the track of a file, and the scene that the requests on standard input lead to",
        )
        .after_help(SHOW)
        .arg(track_file(alloc))?
        .arg(each)?
        .arg(page)
}

/// The command that reads a track.
pub(crate) fn track<'a>(alloc: Global) -> Result<Command<'a>, AllocError> {
    let lines = Arg::new(alloc, "lines")
        .long("lines")
        .help("Writes the track as lines")
        .action(ArgAction::SetTrue);
    Command::new(alloc, "track")
        .about("Reads a track file, and tells why it is refused, if it is")
        .after_help(TRACK)
        .arg(track_file(alloc))?
        .arg(lines)
}

/// The command that tells of a journal.
pub(crate) fn journal<'a>(alloc: Global) -> Result<Command<'a>, AllocError> {
    let file = Arg::new(alloc, "FILE")
        .help("The file of the journal")
        .required(true)
        .action(ArgAction::Set);
    let track = Arg::new(alloc, "TRACK")
        .help("The track file that it should be of")
        .action(ArgAction::Set);
    Command::new(alloc, "journal")
        .about(
            "Tells what the file of a journal has, whether it is damaged, and of which track it is; never changes it",
        )
        .after_help(JOURNAL)
        .arg(file)?
        .arg(track)?
        .arg(journal_lines(alloc)?)?
        .arg(followed(alloc)?)?
        .arg(first_lines(alloc)?)?
        .arg(renewed(alloc)?)?
        .arg(closed(alloc)?)
}

/// Whether the lines of a journal are written.
fn journal_lines<'a>(alloc: Global) -> Result<Arg<'a>, AllocError> {
    Arg::new(alloc, "lines")
        .long("lines")
        .help("Writes the lines that it tells: those before the damage, if it is damaged")
        .action(ArgAction::SetTrue)
        .conflicts_with("first")?
        .conflicts_with("renew")
}

/// Whether the lines of a journal are written as they come to be kept.
fn followed<'a>(alloc: Global) -> Result<Arg<'a>, AllocError> {
    Arg::new(alloc, "follow")
        .long("follow")
        .help(
            "Writes the lines that it tells, and then each that comes to be kept, until nobody reads them or FILE is gone",
        )
        .action(ArgAction::SetTrue)
        .conflicts_with("lines")?
        .conflicts_with("first")?
        .conflicts_with("renew")
}

/// How many lines of a journal are taken over, and where to.
fn first_lines<'a>(alloc: Global) -> Result<Arg<'a>, AllocError> {
    Arg::new(alloc, "first")
        .long("first")
        .value_names(&["N", "OUT"])
        .help("Puts the first N lines that it tells into a new journal, OUT")
        .num_args(2)
        .action(ArgAction::Set)
        .conflicts_with("renew")
}

/// Where the lines of a journal of format 1 are taken over to.
fn renewed<'a>(alloc: Global) -> Result<Arg<'a>, AllocError> {
    Arg::new(alloc, "renew")
        .long("renew")
        .value_name("OUT")
        .help("Puts the lines of a journal of format 1 into a new journal of TRACK, OUT")
        .action(ArgAction::Set)
        .requires_arg("TRACK")
}

/// Where the lines of the scene that a journal leads to are written.
fn closed<'a>(alloc: Global) -> Result<Arg<'a>, AllocError> {
    Arg::new(alloc, "close")
        .long("close")
        .value_name("OUT")
        .help(
            "Writes the lines of the scene that it leads to into a new file, OUT, for the next journal to begin with",
        )
        .action(ArgAction::Set)
        .requires_arg("TRACK")?
        .conflicts_with("lines")?
        .conflicts_with("follow")?
        .conflicts_with("first")?
        .conflicts_with("renew")
}

/// The track file of a centre.
pub(crate) fn track_file<'a>(alloc: Global) -> Arg<'a> {
    Arg::new(alloc, "TRACK")
        .help("The track file")
        .required(true)
        .action(ArgAction::Set)
}

/// The file that a centre writes its history to.
fn history_file<'a>(alloc: Global) -> Arg<'a> {
    Arg::new(alloc, "history")
        .long("history")
        .value_name("FILE")
        .help("Writes to this file, made anew, the lines that lead to the same history again")
        .action(ArgAction::Set)
}

/// The file that tells the scene that a centre begins with. A new journal keeps that scene in front of its lines.
pub(crate) fn scene_file<'a>(alloc: Global) -> Arg<'a> {
    Arg::new(alloc, "from")
        .long("from")
        .value_name("FILE")
        .help(
            "Begins with the scene that this file tells in the lines of a scene, and so does a journal that is new",
        )
        .action(ArgAction::Set)
}

/// The journal of a centre.
pub(crate) fn journal_file<'a>(alloc: Global) -> Arg<'a> {
    Arg::new(alloc, "journal")
        .long("journal")
        .value_name("FILE")
        .help(
            "Goes on from what this file tells, and answers nothing before the file has it on the disk",
        )
        .action(ArgAction::Set)
}

/// How many entries the history of a centre may have.
pub(crate) fn entries<'a>(alloc: Global) -> Arg<'a> {
    Arg::new(alloc, "entries")
        .long("entries")
        .value_name("N")
        .help("How many entries the history may have, 1 to 50000000; 100000 where it is left out")
        .action(ArgAction::Set)
        .value_parser(value_parser!(u32).range(1..=MOST_ENTRIES as i64))
}

/// An option that wants a whole number.
pub(crate) fn number<'a>(alloc: Global, name: &'a str, value: &'a str, help: &'a str) -> Arg<'a> {
    Arg::new(alloc, name)
        .long(name)
        .value_name(value)
        .help(help)
        .required(true)
        .action(ArgAction::Set)
}
