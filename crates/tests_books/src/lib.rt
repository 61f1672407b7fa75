//! Worked rows of automata, lists of runs and books, as tests.
#![tactic(auto)]

#[cfg(test)]
mod automata;
#[cfg(test)]
mod books;
#[cfg(test)]
mod gather;
#[cfg(test)]
mod graphs;
#[cfg(test)]
mod listings;
