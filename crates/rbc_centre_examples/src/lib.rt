//! Worked examples of the centre at work: records, desks with many seats, sweeps and sessions, and what fails in
//! the middle of them. They are tests of the public calls; no product code stands here. What a session says in lines
//! alone is shown on the built program, by `tests/program`.
#![tactic(auto)]

#[cfg(test)]
mod tests;
