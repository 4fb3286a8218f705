//! What stands behind the help of each command.

/// What stands behind the help of the program.
pub(crate) const PAGES: &str = "\
`rbc COMMAND --help` has an example of each command, and its exit statuses.";

/// What stands behind the help of `steps`.
pub(crate) const STEPS: &str = "\
Example:
  printf 'speed 2 0:160 100:120 150:160 end 300\\n' | rbc steps

Exit status:
  0  Each request was answered
  4  A read or write fault, a line over 4,096 bytes, or more than 1,000,000 lines
  5  No memory";

/// What stands behind the help of `check`.
pub(crate) const CHECK: &str = "\
Example:
  rbc steps < requests.txt | rbc check

Exit status:
  0  Each certificate is accepted
  1  A certificate is refused
  4  A read or write fault, a line over 65,536 bytes, or more than 1,000,000 lines
  5  No memory";

/// What stands behind the help of `decode`.
pub(crate) const DECODE: &str = "\
Example:
  rbc run station.toml < morning.txt | rbc decode

Exit status:
  0  Each message and packet is read
  1  One is refused
  4  A read or write fault, a line over 65,536 bytes, or more than 1,000,000 lines
  5  No memory";

/// What stands behind the help of `draw`.
pub(crate) const DRAW: &str = "\
Example:
  rbc run station.toml < morning.txt | rbc draw > morning.html

Exit status:
  0  Each certificate is accepted
  1  A certificate is refused
  4  A read or write fault, a line over 65,536 bytes, or more than 1,000,000 lines
  5  No memory";

/// What stands behind the help of `show`.
pub(crate) const SHOW: &str = "\
Example:
  rbc show station.toml --each --page < morning.txt > morning.html

Exit status:
  0  Each line was answered
  3  The track file can't be read, or is refused
  4  A read or write fault, a line over 4,096 bytes, or more than 1,000,000 lines
  5  No memory";

/// What stands behind the help of `track`.
pub(crate) const TRACK: &str = "\
Example:
  rbc track station.toml --lines

Exit status:
  0  The track file has a track
  3  The track file can't be read, or is refused
  4  A write fault
  5  No memory";

/// What stands behind the help of `journal`.
pub(crate) const JOURNAL: &str = "\
Examples:
  rbc journal day.journal station.toml
  rbc journal day.journal station.toml --close evening.lines

Exit status:
  0  The file is a journal, whole or cut by a crash, and of the track, if one is named; or OUT has the lines
  3  It is no journal, is damaged, or is of another track or format; or it tells fewer than N lines; or another journal
     took its place; or, where it is closed, the track is refused, or it begins with no scene of the track
  4  A file can't be read, or OUT is there already, or fails; or a write fault
  5  No memory";

/// What stands behind the help of `run`.
pub(crate) const RUN: &str = "\
Requests, one a line:
  report T C/B D DIST OVER UNDER LEN TIME  Train T reports its front DIST m past group C/B,
                                           up to OVER m less or UNDER m more; D is nominal or reverse
                                           TIME is T_TRAIN, in units of 10 ms: 0 to 4294967294
  lock R                                   Route R is locked
  free S                                   Section S is freed
  leave T                                  Train T leaves
  yield T END                              Train T gives back its authority from END m past its group on
  ask T                                    Train T asks for an authority
  state                                    Shows the version, and how many trains and locked sections there are
  scene                                    Shows the locked sections and the trains, and what each would be granted

Examples:
  rbc run station.toml --journal day.journal < morning.txt
  rbc run station.toml --journal night.journal --from evening.lines < night.txt

Exit status:
  0  Each line was answered
  3  The track file can't be read, or is refused; or the journal is not one of this track, or FILE tells no scene of it;
     or FILE and the journal begin with different scenes, or the journal tells entries already
  4  A read or write fault, a line over 4,096 bytes, or more than 1,000,000 lines; or the journal, or the file of the
     history, can't be had or fails
  5  No memory";

/// What stands behind the help of `serve`.
pub(crate) const SERVE: &str = "\
Requests, one a line:
  report T C/B D DIST OVER UNDER LEN TIME  Train T reports its front DIST m past group C/B,
                                           up to OVER m less or UNDER m more; D is nominal or reverse
                                           TIME is T_TRAIN, in units of 10 ms: 0 to 4294967294
  lock R                                   Route R is locked
  free S                                   Section S is freed
  leave T                                  Train T leaves
  yield T END                              Train T gives back its authority from END m past its group on
  ask T                                    Train T asks for an authority
  state                                    Shows the version, and how many trains and locked sections there are
  scene                                    Shows the locked sections and the trains, and what each would be granted

Examples:
  rbc serve station.toml --port 7001 --connections 2 --workers 2 --patience 60
  rbc serve station.toml --port 7001 --connections 2 --sweep no --journal day.journal
  rbc serve station.toml --stay --port 7001 --connections 8 --log --journal day.journal --page 8080

Exit status:
  0  All connections have ended, and each train was served once more, if there is a sweep; with --stay the end was asked for
  3  The track file can't be read, or is refused; or the journal is not one of this track, or FILE tells no scene of it;
     or FILE and the journal begin with different scenes, or the journal tells entries already
  4  The port can't be opened, or accepts no connection; a write fault; or the journal can't be had or fails
  5  No memory, or no thread for a connection
  6  The receipts of the connections and the sweep are not the history";
