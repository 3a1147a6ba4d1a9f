//! Tests of the requests as a whole, over files in memory.
#![tactic(auto)]

#[cfg(test)]
mod about;
#[cfg(test)]
mod answers;
#[cfg(test)]
mod certificates;
#[cfg(test)]
mod certifying;
#[cfg(test)]
mod checks;
#[cfg(test)]
mod domains;
#[cfg(test)]
mod evaluator;
#[cfg(test)]
mod exactness;
#[cfg(test)]
mod formatting;
#[cfg(test)]
mod formula;
#[cfg(test)]
mod games;
#[cfg(test)]
mod opponents;
#[cfg(test)]
mod plays;
#[cfg(test)]
mod positions;
#[cfg(test)]
mod reading_back;
#[cfg(test)]
mod requests;
#[cfg(test)]
mod solving;
#[cfg(test)]
mod solving_formulas;
#[cfg(test)]
mod start_positions;
#[cfg(test)]
mod trials;
