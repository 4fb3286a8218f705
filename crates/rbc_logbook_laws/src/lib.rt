//! Laws of a book's log that is counted by the first word: what begins it, and that adding an entry keeps the rule. Nothing here runs.
#![tactic(auto)]
