//! The command line of the program `rbc`.
#![tactic(auto)]

mod commands;
mod help;
mod reading;
mod serving;

ghost use Rattle.std.specs.Prelude.{◌≤◌};

use clap::error::ErrorKind;
use clap::{Command, Error};
use commands::{check, decode, draw, journal, run, show, steps, track};
use help::PAGES;
pub use rbc_port::Terms;
use reading::task_in;
use serving::{Ending, serve};
use std::alloc::Global;
use std::net::Ipv4Addr;

/// What the command line asks for.
#[derive(Clone, Copy, Debug, PartialEq, Eq)]
pub enum Task<'a> {
    /// Answer the speed and grade requests of the standard input.
    Steps,
    /// Judge the certificates of the standard input.
    Check,
    /// Print the messages of the standard input field by field.
    Decode(Printing),
    /// Draw the certificates of the standard input.
    Draw,
    /// Run a centre.
    Run(CentreOptions<'a>),
    /// Show what a session leads to.
    Show(Shown<'a>),
    /// Read a track.
    Track(Listed<'a>),
    /// Serve connections.
    Serve(Service<'a>),
    /// Serve clients that come and go, until the end is asked for.
    Stay(Staying<'a>),
    /// Tell of a journal, or take lines over from one.
    Journal(Journaled<'a>),
    /// Write the scene that a journal leads to.
    Close(JournalClosing<'a>),
}

/// How messages are printed.
#[derive(Clone, Copy, Debug, PartialEq, Eq)]
pub enum Printing {
    /// In lines of fields and words.
    Plain,
    /// As a line of JSON each.
    Json,
}

/// How a centre runs.
#[derive(Clone, Copy, Debug, PartialEq, Eq)]
pub struct CentreOptions<'a> {
    /// The track file.
    pub track: &'a str,
    /// The file that its history is written to, if there is one.
    pub history: Option<&'a str>,
    /// The file that tells the scene that it begins with, if one is named. A journal that is new begins with it too.
    pub from: Option<&'a str>,
    /// The file of its journal, if it has one.
    pub journal: Option<&'a str>,
    /// How many entries its history may have, 1 to 50,000,000, if that is said.
    pub entries: Option<usize>,
}

/// How a session is shown.
#[derive(Clone, Copy, Debug, PartialEq, Eq)]
pub struct Shown<'a> {
    /// The track file.
    pub track: &'a str,
    /// Whether each line is told with its reply and the scene that it leads to; else the last scene alone.
    pub each: bool,
    /// Whether the lines stand in a page that draws them.
    pub page: bool,
}

/// How a track is read.
#[derive(Clone, Copy, Debug, PartialEq, Eq)]
pub struct Listed<'a> {
    /// The track file.
    pub track: &'a str,
    /// Whether it is written as lines.
    pub lines: bool,
}

/// What is asked of the file of a journal.
#[derive(Clone, Copy, Debug, PartialEq, Eq)]
pub struct Journaled<'a> {
    /// The file.
    pub file: &'a str,
    /// The track file, if one is named: always, where the journal is renewed.
    pub track: Option<&'a str>,
    /// What is done with it.
    pub work: JournalWork<'a>,
}

/// What is done with the file of a journal. It never changes.
#[derive(Clone, Copy, Debug, PartialEq, Eq)]
pub enum JournalWork<'a> {
    /// A report of it is written.
    Report,
    /// Its lines are written.
    Lines,
    /// Its lines are written, and then each that comes to be kept.
    Follow,
    /// So many of its first lines are put into a new journal, in this file.
    First(u64, &'a str),
    /// The lines of a journal of format 1 are put into a new journal, in this file.
    Renew(&'a str),
}

/// What is asked where a journal is closed.
#[derive(Clone, Copy, Debug, PartialEq, Eq)]
pub struct JournalClosing<'a> {
    /// The file of the journal.
    pub journal: &'a str,
    /// The track file.
    pub track: &'a str,
    /// The file that the lines of the scene are written into, which is new.
    pub out: &'a str,
}

/// How a centre serves.
#[derive(Clone, Copy, Debug, PartialEq, Eq)]
pub struct Service<'a> {
    /// The track file.
    pub track: &'a str,
    /// The port, 1 to 65,535.
    pub port: u16,
    /// How many connections are taken, 1 to 8.
    pub connections: usize,
    /// How many workers the sweep has, up to 8. Where there are none, there is no sweep.
    pub workers: usize,
    /// The file that tells the scene that it begins with, if one is named. A journal that is new begins with it too.
    pub from: Option<&'a str>,
    /// The file of its journal, if it has one.
    pub journal: Option<&'a str>,
    /// How many entries its history may have, 1 to 50,000,000, if that is said.
    pub entries: Option<usize>,
    /// On what terms clients are served.
    pub terms: Terms,
    pub ghost some: { 1 ≤ connections },
    pub ghost few: { (connections ≤ 8) × (workers ≤ 8) },
}

/// How a centre stays up.
#[derive(Clone, Copy, Debug, PartialEq, Eq)]
pub struct Staying<'a> {
    /// The track file.
    pub track: &'a str,
    /// The port, 1 to 65,535.
    pub port: u16,
    /// How many clients are served at once, 1 to 64.
    pub places: usize,
    /// The file that tells the scene that it begins with, if one is named. A journal that is new begins with it too.
    pub from: Option<&'a str>,
    /// The file of its journal, if it has one.
    pub journal: Option<&'a str>,
    /// How many entries its history may have, 1 to 50,000,000, if that is said.
    pub entries: Option<usize>,
    /// Where its page is shown, if it has one.
    pub page: Option<PagePlace>,
    /// On what terms clients are served.
    pub terms: Terms,
    pub ghost some: { 1 ≤ places },
    pub ghost few: { places ≤ 64 },
}

/// Where the page of a centre is shown.
#[derive(Clone, Copy, Debug, PartialEq, Eq)]
pub struct PagePlace {
    /// The address.
    pub address: Ipv4Addr,
    /// The port, 1 to 65,535.
    pub port: u16,
}

/// Reads the command line, whose first word is the program's name. A line that asks for help, or for the version, is an
/// error whose exit code is 0.
pub fn read<'a>(alloc: Global, version: &'a str, words: &'a [String]) -> Result<Task<'a>, Error> {
    let mut command = Command::new(alloc, "rbc")
        .about("The deciding part of an ETCS Level 2 radio block centre")
        .version(version)
        .after_help(PAGES)
        .subcommand_required(true)
        .subcommand(steps(alloc))?
        .subcommand(check(alloc))?
        .subcommand(decode(alloc)?)?
        .subcommand(draw(alloc))?
        .subcommand(run(alloc)?)?
        .subcommand(show(alloc)?)?
        .subcommand(track(alloc)?)?
        .subcommand(serve(alloc, Ending::of(words))?)?
        .subcommand(journal(alloc)?)?;
    let matches = command.try_get_matches_from_mut(words)?;
    match task_in(&matches) {
        Ok(task) => Ok(task),
        Err(misread) => Err(command.error(ErrorKind::ValueValidation, misread.text())?),
    }
}
