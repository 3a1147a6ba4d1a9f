//! Tests of the crates that decide formulas, by subject.
#![tactic(auto)]

#[cfg(test)]
mod forms;
#[cfg(test)]
mod searches;
#[cfg(test)]
mod stores;
#[cfg(test)]
mod trails;
