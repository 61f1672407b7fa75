//! Worked rows of decision diagrams, as tests.
#![tactic(auto)]

#[cfg(test)]
mod diagrams;
#[cfg(test)]
mod operations;
#[cfg(test)]
mod tables;
#[cfg(test)]
mod triples;
#[cfg(test)]
mod truth;
