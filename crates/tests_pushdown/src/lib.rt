//! Worked rows of lists, rules, runs and patterns, as tests.
#![tactic(auto)]

#[cfg(test)]
mod documents;
#[cfg(test)]
mod keys;
#[cfg(test)]
mod patterns;
#[cfg(test)]
mod rules;
#[cfg(test)]
mod sequences;
