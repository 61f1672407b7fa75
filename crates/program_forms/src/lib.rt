//! The text of Boolean programs: which bytes are which program, and which line of the others is
//! refused first.
#![tactic(auto)]

mod laws;

pub use laws::one_program_or_one_refusal;
