//! Worked examples of the lowest parts: bits, messages, sessions over readers and writers that fail, and journals whose
//! files are torn or fail. They are tests of the public calls; no product code stands here.
#![tactic(auto)]

#[cfg(test)]
mod tests;
