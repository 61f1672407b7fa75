//! Small random programs, of which every point is asked: what is answered against a walk over all states,
//! as tests.
#![tactic(auto)]

#[cfg(test)]
mod compared;
#[cfg(test)]
mod draws;
#[cfg(test)]
mod reading;
#[cfg(test)]
mod told;
#[cfg(test)]
mod walk;
#[cfg(test)]
mod worked;
#[cfg(test)]
mod writing;
