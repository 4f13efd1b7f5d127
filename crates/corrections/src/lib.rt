//! The register of a day's reports, in which the target of a cancel, a correction or a reinstatement is looked up, and of each
//! participant's last message number.
#![tactic(auto)]

mod register;
mod target;
mod target_fault;

pub use register::Register;
pub use sale_matrix::Content;
pub use target::{Located, Standing, Target};
pub use target_fault::TargetFault;
