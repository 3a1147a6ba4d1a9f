/// What a command line asks for, by its first word.
#[derive(Clone, Copy, Debug, PartialEq, Eq)]
pub enum Command {
    Compile,
    Solve,
    SolveFormula,
    Certify,
    Check,
    Recertify,
    Play,
    Trial,
    FormatDomain,
    FormatProblem,
    Help,
    Version,
}
