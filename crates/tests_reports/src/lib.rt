//! What `run` does with whole documents where it takes a call to see it: failing devices, gates, workers and a
//! report of a hundred thousand lines, as tests. What only compares a document's report stands in `rows/`.
#![tactic(auto)]

#[cfg(test)]
mod devices;
#[cfg(test)]
mod ladders;
#[cfg(test)]
mod longest;
#[cfg(test)]
mod rows;
#[cfg(test)]
mod workers;
