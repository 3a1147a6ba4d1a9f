//! Tests of the crates below the requests, by subject. Games are read from their texts.
#![tactic(auto)]

#[cfg(test)]
mod cells;
#[cfg(test)]
mod checking;
#[cfg(test)]
mod clauses;
#[cfg(test)]
mod codes;
#[cfg(test)]
mod compiled;
#[cfg(test)]
mod forms;
#[cfg(test)]
mod formula_texts;
#[cfg(test)]
mod gates;
#[cfg(test)]
mod layouts;
#[cfg(test)]
mod lexing;
#[cfg(test)]
mod made;
#[cfg(test)]
mod moves;
#[cfg(test)]
mod prefixes;
#[cfg(test)]
mod printing;
#[cfg(test)]
mod qdimacs;
#[cfg(test)]
mod ranges;
#[cfg(test)]
mod reading;
#[cfg(test)]
mod rectangles;
#[cfg(test)]
mod setups;
#[cfg(test)]
mod tails;
#[cfg(test)]
mod wires;
#[cfg(test)]
mod words;
