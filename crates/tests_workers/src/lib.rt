//! Worked rows by workers in threads, as tests: the lock, hands that are out at once, gates, and want of memory.
#![tactic(auto)]

#[cfg(test)]
mod driving;
#[cfg(test)]
mod locks;
#[cfg(test)]
mod seats;
#[cfg(test)]
mod short;
#[cfg(test)]
mod workers;
