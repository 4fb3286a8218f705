//! The command that serves connections.

use crate::commands::{entries, journal_file, number, scene_file, track_file};
use crate::help::SERVE;
use clap::{Arg, ArgAction, Command, value_parser};
use std::alloc::{AllocError, Global};

/// How many connections a centre takes that ends once all have ended.
const MOST_CONNECTIONS: i64 = 8;

/// Whether a centre makes a sweep: the words behind `--sweep`.
const SWEEPS: &[&str] = &["yes", NO_SWEEP];

/// The word for none.
pub(crate) const NO_SWEEP: &str = "no";

/// How many clients a centre that stays up serves at once, at most.
const MOST_PLACES: i64 = 64;

/// How a centre that serves connections ends. It decides what else it may be asked for.
#[derive(Clone, Copy, Debug, PartialEq, Eq)]
pub(crate) enum Ending {
    /// With a sweep, by workers.
    Swept,
    /// With all connections, and without a sweep.
    Unswept,
    /// When it is told to, without a sweep.
    Told,
}

impl Ending {
    /// The one that a command line asks for.
    pub(crate) fn of(words: &[String]) -> Ending {
        let mut names_sweep = false;
        let mut ending = Ending::Swept;
        for word in words {
            let word = word.as_str();
            if word == "--stay" {
                return Ending::Told;
            }
            if word == "--sweep=no" || (names_sweep && word == NO_SWEEP) {
                ending = Ending::Unswept;
            }
            names_sweep = word == "--sweep";
        }
        ending
    }

    /// How many connections there may be.
    fn most_connections(self) -> i64 {
        match self {
            Ending::Told => MOST_PLACES,
            Ending::Swept | Ending::Unswept => MOST_CONNECTIONS,
        }
    }
}

/// The command that serves connections, and ends so.
pub(crate) fn serve<'a>(alloc: Global, ending: Ending) -> Result<Command<'a>, AllocError> {
    Command::new(alloc, "serve")
        .about(
            "Runs a centre on the track of a file for several connections at once, and serves every train at the end",
        )
        .after_help(SERVE)
        .arg(track_file(alloc))?
        .arg(port(alloc))?
        .arg(stay(alloc)?)?
        .arg(connections(alloc, ending.most_connections()))?
        .arg(workers(alloc, ending == Ending::Swept))?
        .arg(sweep(alloc, ending)?)?
        .arg(patience(alloc))?
        .arg(log(alloc))?
        .arg(scene_file(alloc))?
        .arg(journal_file(alloc))?
        .arg(entries(alloc))?
        .arg(page(alloc)?)?
        .arg(page_address(alloc)?)
}

/// The port that a centre serves.
fn port<'a>(alloc: Global) -> Arg<'a> {
    number(alloc, "port", "P", "The port on 127.0.0.1").value_parser(value_parser!(u16).range(1..))
}

/// Whether a centre stays up.
fn stay<'a>(alloc: Global) -> Result<Arg<'a>, AllocError> {
    Arg::new(alloc, "stay")
        .long("stay")
        .help(
            "Serves clients that come and go, until standard input ends or has a line `end`; without a sweep",
        )
        .action(ArgAction::SetTrue)
        .conflicts_with("workers")?
        .conflicts_with("sweep")
}

/// How many connections a centre serves, up to this number.
fn connections<'a>(alloc: Global, most: i64) -> Arg<'a> {
    number(
        alloc,
        "connections",
        "N",
        "How many connections are taken, 1 to 8; with --stay, how many are served at once, 1 to 64",
    )
    .value_parser(value_parser!(u8).range(1..=most))
}

/// How many workers a centre has for its sweep, if it makes one.
fn workers<'a>(alloc: Global, sweeps: bool) -> Arg<'a> {
    number(
        alloc,
        "workers",
        "W",
        "How many workers serve all trains at the end, 1 to 8",
    )
    .required(sweeps)
    .value_parser(value_parser!(u8).range(1..=8))
}

/// Whether a centre makes a sweep. Workers are for that alone.
fn sweep<'a>(alloc: Global, ending: Ending) -> Result<Arg<'a>, AllocError> {
    let sweep = Arg::new(alloc, "sweep")
        .long("sweep")
        .value_name("SWEEP")
        .help("Whether each train is served once more at the end; with `no` there are no workers")
        .action(ArgAction::Set)
        .value_parser(SWEEPS);
    match ending {
        Ending::Unswept => sweep.conflicts_with("workers"),
        Ending::Swept | Ending::Told => Ok(sweep),
    }
}

/// How long a centre waits for a client.
fn patience<'a>(alloc: Global) -> Arg<'a> {
    Arg::new(alloc, "patience")
        .long("patience")
        .value_name("SECONDS")
        .help(
            "Ends a connection that says nothing, or takes nothing, for so long, 1 to 86400; with --stay 60 where it is left out",
        )
        .action(ArgAction::Set)
        .value_parser(value_parser!(u32).range(1..=86_400))
}

/// Whether a centre keeps a log.
fn log<'a>(alloc: Global) -> Arg<'a> {
    Arg::new(alloc, "log")
        .long("log")
        .help(
            "Tells on standard error which connections begin and end, and each minute what was done",
        )
        .action(ArgAction::SetTrue)
}

/// The port of a centre's page. Only a centre that stays up has one, which makes no sweep.
fn page<'a>(alloc: Global) -> Result<Arg<'a>, AllocError> {
    Arg::new(alloc, "page")
        .long("page")
        .value_name("PORT")
        .help("With --stay, shows the running centre to browsers on this port")
        .action(ArgAction::Set)
        .value_parser(value_parser!(u16).range(1..))
        .conflicts_with("workers")?
        .conflicts_with("sweep")
}

/// The address of a centre's page.
fn page_address<'a>(alloc: Global) -> Result<Arg<'a>, AllocError> {
    Arg::new(alloc, "page-address")
        .long("page-address")
        .value_name("A")
        .help(
            "The IPv4 address of the page, 127.0.0.1 where it is left out; nobody is asked who they are",
        )
        .action(ArgAction::Set)
        .requires_arg("page")
}
