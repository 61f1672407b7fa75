//! The automaton of a pattern as a saturation begins with it: the pattern's control is the control's own state, and its
//! items are numbered behind the controls. Several patterns have one automaton, where the items of each stand behind those
//! of the patterns before it.
#![tactic(auto)]

mod joint;
mod laws;
mod opening;
mod over;

pub use joint::{JointOpening, joint_opening};
pub use laws::{
    joint_edges_lead_to_items, later_openings_read_members, openings_join_states,
    openings_read_members,
};
pub use opening::{final_states, opening_of};
pub use over::is_over;
