//! What all crates stand on: out of memory, texts, lists that contracts see as lists, the limits of a document, and the gate of
//! workers.
#![tactic(auto)]

mod gate;
mod limits;
mod out_of_memory;
mod sequence;
mod text;

pub use gate::{Gate, OpenGate};
pub use limits::{
    MOST_BYTES, MOST_CONTROLS, MOST_COPIED, MOST_COST, MOST_DEPTH, MOST_EDGES, MOST_FACTS,
    MOST_ITEMS, MOST_PUSHED, MOST_QUERIES, MOST_RELATED, MOST_RULES, MOST_RUNGS, MOST_SEATS,
    MOST_SYMBOLS, MOST_TRACED,
};
pub use out_of_memory::OutOfMemory;
pub use sequence::Sequence;
pub use text::Text;
