//! Tests subscribers, retransmission and batches: rows of limits, seeded schedules, memory that is refused, and reads and writes
//! that fail.
#![tactic(auto)]

#[cfg(test)]
mod tests;
