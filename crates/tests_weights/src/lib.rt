//! Worked rows of the semirings, as tests.
#![tactic(auto)]

#[cfg(test)]
mod constants;
#[cfg(test)]
mod costs;
#[cfg(test)]
mod facts;
#[cfg(test)]
mod laws;
#[cfg(test)]
mod relations;
