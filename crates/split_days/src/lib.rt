//! A day split by symbols over several tapes: laws of what each part keeps from the whole.
#![tactic(auto)]

pub mod laws;
