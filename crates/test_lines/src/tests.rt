//! Days, lines that run, lines that send and messages, which several tests use, and the tests by what goes on: the ends of a line,
//! worked rows, lines and readers at once, publications and answers while lines are open, a seeded day, refused memory.

mod days;
mod differences;
mod ends;
mod lines;
mod messages;
mod openings;
mod readers;
mod refused;
mod rows;
mod seeds;
mod sending;
mod served;
mod together;
