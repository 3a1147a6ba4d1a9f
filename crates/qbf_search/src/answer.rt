// What a search answers.

/// The value of a form, or that no step was left to find it. `first` has the values of the first block,
/// in the order of the prefix, under which the rest has the form's value. It is for an existential block
/// where the form is true, and for a universal one where it is false; else it is empty.
#[derive(Debug, Drop)]
pub enum Answer {
    True { first: Vec<bool> },
    False { first: Vec<bool> },
    Spent,
}
