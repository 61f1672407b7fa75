//! Rows of texts of Boolean programs: how their lines are read, which are refused, and walks through
//! those that are read, as tests.
#![tactic(auto)]

#[cfg(test)]
mod draws;
#[cfg(test)]
mod forms;
#[cfg(test)]
mod limits;
#[cfg(test)]
mod lock;
#[cfg(test)]
mod parts;
#[cfg(test)]
mod reading;
#[cfg(test)]
mod rows;
#[cfg(test)]
mod statements;
#[cfg(test)]
mod states;
#[cfg(test)]
mod tables;
#[cfg(test)]
mod walks;
