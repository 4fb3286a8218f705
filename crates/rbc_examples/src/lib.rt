//! Worked examples: what the definitions of `rbc_model` give on examples worked by hand, each shown by computation.
#![tactic(auto)]
