//! What the words, expressions and documents of the text are, as tests.
#![tactic(auto)]

#[cfg(test)]
mod bytes;
#[cfg(test)]
mod documents;
#[cfg(test)]
mod expressions;
#[cfg(test)]
mod names;
#[cfg(test)]
mod queries;
#[cfg(test)]
mod rules;
#[cfg(test)]
mod systems;
#[cfg(test)]
mod weights;
#[cfg(test)]
mod writing;
