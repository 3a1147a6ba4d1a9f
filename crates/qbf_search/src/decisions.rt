// The decisions of a search: of each variable that has a value, in the order of the prefix, whether it is
// open, its other value being still to be tried.
ghost use Rattle.std.specs.Prelude.{◌≡◌, ◌⊎◌, ℕ, ◌≤◌, ◌<◌, ◌-◌, true, false, length, take, vec_len, vec_capacity};
ghost use Rattle.qbf_search.specs.Standing as spec;
ghost use Rattle.qbf_search.specs.Standing.{is_open};

use bddl_model::{Bound, Quant};

/// Whether one value of a variable decides it.
fn decides(quant: Quant, value: bool) -> bool
    ensures { result ≡ spec.decides quant value }
{
    match quant {
        Quant::Exists => value,
        Quant::All => !value,
    }
}

/// The variable at a place of the prefix, with its quantifier.
pub fn bound_at(prefix: &[Bound], place: usize) -> Bound
    requires { place < length prefix.now }
    ensures { result ≡ spec.bound_at prefix.now place }
{
    prefix[place]
}

/// Takes back the last decisions up to an open one that the value doesn't decide.
pub fn leave(prefix: &[Bound], decisions: &mut Vec<bool>, value: bool)
    requires { vec_len decisions.old ≤ length prefix.now }
    ensures front { decisions.new.items ≡ take (vec_len decisions.new) decisions.old.items }
    ensures shorter { vec_len decisions.new ≤ vec_len decisions.old }
    ensures left { (place : ℕ) → vec_len decisions.new ≤ place → place < vec_len decisions.old
        → (is_open decisions.old.items place ≡ false) ⊎ (spec.decides (spec.bound_at prefix.now place).quant value ≡ true) }
    ensures last { 0 < vec_len decisions.new → is_open decisions.new.items (vec_len decisions.new - 1) ≡ true }
    ensures undecided { 0 < vec_len decisions.new → spec.decides (spec.bound_at prefix.now (vec_len decisions.new - 1)).quant value ≡ false }
    ensures capacity { vec_capacity decisions.new ≡ vec_capacity decisions.old }
{
    while !decisions.is_empty() {
        let place = decisions.len() - 1;
        if decisions[place] && !decides(bound_at(prefix, place).quant, value) {
            return;
        }
        decisions.truncate(place);
    }
}
