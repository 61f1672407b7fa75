//! Worked rows of runs and of saturations in both directions, by one seat and by two, as tests.
#![tactic(auto)]

#[cfg(test)]
mod forwards;
#[cfg(test)]
mod openings;
#[cfg(test)]
mod return_maps;
#[cfg(test)]
mod run_values;
#[cfg(test)]
mod saturations;
#[cfg(test)]
mod seats;
