use std::sync::Wait;
use std::thread::Threads;
use wpds_port::Gate;

/// What workers need beside their work: the runtime whose threads they are, and the gate that each calls between taking a
/// transition and settling it.
#[derive(Drop)]
pub(crate) struct Crew<'a, H: Threads + Wait + Sync, G: Gate> {
    pub(crate) rt: &'a H,
    pub(crate) gate: &'a G,
}
