//! Worked rows of answers to queries, by both directions, as tests.
#![tactic(auto)]

#[cfg(test)]
mod answers;
#[cfg(test)]
mod callees;
#[cfg(test)]
mod ends;
#[cfg(test)]
mod renewed;
