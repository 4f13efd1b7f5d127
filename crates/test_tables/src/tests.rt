//! Steps, stores and dice that several tests use, and the tests by what goes on: worked rows, a seed, refused memory, failing
//! writes.

mod dice;
mod faults;
mod refused;
mod rows;
mod seeds;
mod steps;
mod stores;
