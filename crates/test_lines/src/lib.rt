//! Tests shared tapes and participants' lines over them: worked rows, lines and readers at once, a seeded day, and memory that is
//! refused.
#![tactic(auto)]

#[cfg(test)]
mod tests;
