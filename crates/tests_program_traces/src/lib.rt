//! Worked traces of programs, as tests.
#![tactic(auto)]

#[cfg(test)]
mod checked;
#[cfg(test)]
mod lock;
#[cfg(test)]
mod rows;
#[cfg(test)]
mod texts;
