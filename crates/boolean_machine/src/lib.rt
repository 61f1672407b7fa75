//! The machine of a Boolean program, as definitions and laws: its states, its moves and its runs.
//! No code.
#![tactic(auto)]

mod laws;

pub use laws::{
    lists_are_states, moves_are_tested, moves_keep_states, picks_make_moves, programs_are_lawful,
};
