//! Tests of certificates below the requests.
#![tactic(auto)]

#[cfg(test)]
mod texts;
