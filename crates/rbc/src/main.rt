//! The program `rbc`, the deciding part of an ETCS Level 2 radio block centre.
#![tactic(auto)]

mod version;

use rbc_commands::run;
use std::process::ExitCode;
use version::VERSION;

fn main(rt: HostRuntime) -> ExitCode {
    match run(&rt, VERSION) {
        Ok(()) => ExitCode::SUCCESS,
        Err(failure) => {
            let failure = failure.told(&rt);
            ExitCode::from(failure.status())
        }
    }
}
