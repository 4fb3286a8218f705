//! What a command line asks for, which the parser has accepted.

ghost use Rattle.std.specs.Prelude.{◌≤◌};

use crate::serving::NO_SWEEP;
use crate::{
    CentreOptions, JournalClosing, JournalWork, Journaled, Listed, PagePlace, Printing, Service,
    Shown, Staying, Task, Terms,
};
use clap::ArgMatches;
use std::net::Ipv4Addr;
use std::time::Duration;

/// How long a centre that stays up waits for a client where nothing is said, in seconds.
const PATIENCE: u64 = 60;

/// A word that the parser accepts, and that is not what its option wants.
#[derive(Clone, Copy, Debug, PartialEq, Eq)]
pub(crate) enum Misread {
    /// How many lines of a journal are taken over.
    FirstLines,
    /// The address of a page.
    PageAddress,
}

impl Misread {
    /// What is told of it.
    pub(crate) fn text(self) -> &'static str {
        match self {
            Misread::FirstLines => "N of '--first <N> <OUT>' is no whole number",
            Misread::PageAddress => "A of '--page-address <A>' is no IPv4 address",
        }
    }
}

/// What a command line asks for, which the parser has accepted.
///
/// # Errors
///
/// The first word that is not what its option wants.
pub(crate) fn task_in<'a>(matches: &ArgMatches<'a>) -> Result<Task<'a>, Misread> {
    if let Some(journal) = matches.subcommand_matches("journal") {
        return journal_task_in(journal);
    }
    if let Some(serve) = matches.subcommand_matches("serve") {
        return if serve.get_flag("stay") {
            Ok(Task::Stay(staying_in(serve)?))
        } else {
            Ok(Task::Serve(service_in(serve)))
        };
    }
    Ok(input_task_in(matches))
}

/// What is asked of the standard input, or of a track file.
fn input_task_in<'a>(matches: &ArgMatches<'a>) -> Task<'a> {
    if let Some(run) = matches.subcommand_matches("run") {
        return Task::Run(CentreOptions {
            track: run.get_str("TRACK").unwrap_or(""),
            history: run.get_str("history"),
            from: run.get_str("from"),
            journal: run.get_str("journal"),
            entries: run.get_one("entries"),
        });
    }
    if let Some(show) = matches.subcommand_matches("show") {
        return Task::Show(Shown {
            track: show.get_str("TRACK").unwrap_or(""),
            each: show.get_flag("each"),
            page: show.get_flag("page"),
        });
    }
    if let Some(track) = matches.subcommand_matches("track") {
        return Task::Track(Listed {
            track: track.get_str("TRACK").unwrap_or(""),
            lines: track.get_flag("lines"),
        });
    }
    if let Some(decode) = matches.subcommand_matches("decode") {
        return Task::Decode(printing_in(decode));
    }
    if matches.subcommand_matches("draw").is_some() {
        return Task::Draw;
    }
    match matches.subcommand_matches("check") {
        Some(_) => Task::Check,
        None => Task::Steps,
    }
}

/// What is asked of a journal: that it is closed, or something of its file.
///
/// # Errors
///
/// `FirstLines`.
fn journal_task_in<'a>(matches: &ArgMatches<'a>) -> Result<Task<'a>, Misread> {
    match matches.get_str("close") {
        Some(out) => Ok(Task::Close(closing_in(matches, out))),
        None => Ok(Task::Journal(journaled_in(matches)?)),
    }
}

/// What is asked where a journal is closed, and its last scene is written here.
fn closing_in<'a>(matches: &ArgMatches<'a>, out: &'a str) -> JournalClosing<'a> {
    JournalClosing {
        journal: matches.get_str("FILE").unwrap_or(""),
        track: matches.get_str("TRACK").unwrap_or(""),
        out,
    }
}

/// What is asked of the file of a journal.
///
/// # Errors
///
/// `FirstLines`.
fn journaled_in<'a>(matches: &ArgMatches<'a>) -> Result<Journaled<'a>, Misread> {
    Ok(Journaled {
        file: matches.get_str("FILE").unwrap_or(""),
        track: matches.get_str("TRACK"),
        work: work_in(matches)?,
    })
}

/// What is done with the file of a journal.
///
/// # Errors
///
/// `FirstLines`.
fn work_in<'a>(matches: &ArgMatches<'a>) -> Result<JournalWork<'a>, Misread> {
    if matches.get_flag("lines") {
        return Ok(JournalWork::Lines);
    }
    if matches.get_flag("follow") {
        return Ok(JournalWork::Follow);
    }
    if let Some(out) = matches.get_str("renew") {
        return Ok(JournalWork::Renew(out));
    }
    let Some([_, out]) = matches.get_strs("first") else {
        return Ok(JournalWork::Report);
    };
    match matches.get_one("first") {
        Some(count) => Ok(JournalWork::First(count, *out)),
        None => Err(Misread::FirstLines),
    }
}

/// How many of something a command line asks for, 1 to 8. The parser accepts nothing else.
fn count_in(matches: &ArgMatches, name: &str) -> usize
    ensures { (1 ≤ result) × (result ≤ 8) }
{
    matches.get_one::<usize>(name).unwrap_or(1).clamp(1, 8)
}

/// How a command line asks to print messages.
fn printing_in(matches: &ArgMatches) -> Printing {
    if matches.get_flag("json") {
        Printing::Json
    } else {
        Printing::Plain
    }
}

/// How a command line asks to serve, which the parser has accepted.
fn service_in<'a>(matches: &ArgMatches<'a>) -> Service<'a> {
    Service {
        track: matches.get_str("TRACK").unwrap_or(""),
        port: matches.get_one("port").unwrap_or(1),
        connections: count_in(matches, "connections"),
        workers: workers_in(matches),
        from: matches.get_str("from"),
        journal: matches.get_str("journal"),
        entries: matches.get_one("entries"),
        terms: terms_in(matches),
    }
}

/// How many workers a command line asks for, up to 8: none, where it asks for no sweep.
fn workers_in(matches: &ArgMatches) -> usize
    ensures { result ≤ 8 }
{
    match matches.get_str("sweep") {
        Some(word) if word == NO_SWEEP => 0,
        _ => count_in(matches, "workers"),
    }
}

/// How a command line asks to stay up, which the parser has accepted.
///
/// # Errors
///
/// `PageAddress`.
fn staying_in<'a>(matches: &ArgMatches<'a>) -> Result<Staying<'a>, Misread> {
    let terms = terms_in(matches);
    Ok(Staying {
        track: matches.get_str("TRACK").unwrap_or(""),
        port: matches.get_one("port").unwrap_or(1),
        places: places_in(matches),
        from: matches.get_str("from"),
        journal: matches.get_str("journal"),
        entries: matches.get_one("entries"),
        page: page_in(matches)?,
        terms: Terms {
            patience: Some(terms.patience.unwrap_or(Duration::from_secs(PATIENCE))),
            ..terms
        },
    })
}

/// Where a command line asks to show a page, if it does.
///
/// # Errors
///
/// `PageAddress`.
fn page_in(matches: &ArgMatches) -> Result<Option<PagePlace>, Misread> {
    let Some(port) = matches.get_one("page") else {
        return Ok(None);
    };
    let Some(text) = matches.get_str("page-address") else {
        return Ok(Some(PagePlace {
            address: Ipv4Addr::LOCALHOST,
            port,
        }));
    };
    match text.parse() {
        Ok(address) => Ok(Some(PagePlace { address, port })),
        Err(_) => Err(Misread::PageAddress),
    }
}

/// How many clients a command line asks to serve at once, 1 to 64. The parser accepts nothing else.
fn places_in(matches: &ArgMatches) -> usize
    ensures { (1 ≤ result) × (result ≤ 64) }
{
    matches
        .get_one::<usize>("connections")
        .unwrap_or(1)
        .clamp(1, 64)
}

/// On what terms a command line asks to serve clients.
fn terms_in(matches: &ArgMatches) -> Terms {
    Terms {
        patience: matches.get_one("patience").map(Duration::from_secs),
        is_logged: matches.get_flag("log"),
    }
}
