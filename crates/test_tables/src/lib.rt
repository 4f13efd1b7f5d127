//! Tests the crates up to a report's rows and tables of messages: worked rows, seeded changes, memory that is refused and writes
//! that fail.
#![tactic(auto)]

#[cfg(test)]
mod tests;
