//! A control socket, by which an operator asks a running day for its status and ends it.
#![tactic(auto)]

mod answer;
mod asking;
mod client;
mod command;
mod connections;
mod control;
mod control_fault;
mod line;
mod listener;
mod operator;
mod place;
mod serve_end;
mod serving;
mod standing;

pub use asking::{ANSWER_MOST, ask_over};
pub use client::ask_control;
pub use command::ControlCommand;
pub use connections::CONNECTIONS_MOST;
pub use control::serve_control;
pub use control_fault::ControlFault;
pub use line::LINE_MOST;
pub use listener::{ControlListener, open_control, remove_control};
pub use operator::{Operated, Operator};
pub use place::ControlPlace;
pub use serve_end::{ControlEnd, ControlOutcome};
pub use serving::serve_commands;
