//! What the program does with its words, its bytes and its report, as tests.
#![tactic(auto)]

#[cfg(test)]
mod ladders;
#[cfg(test)]
mod listings;
#[cfg(test)]
mod running;
#[cfg(test)]
mod traces;
#[cfg(test)]
mod words;
