/// How a play under a certificate ends: Black's goal stands after so many plies, no reply comes, a reply
/// isn't one of the moves that were shown, or the transcript can't be written.
#[derive(Clone, Copy, Debug, PartialEq, Eq)]
pub enum Played {
    Reached { plies: u32 },
    Gone,
    BadReply { number: u64, count: u64 },
    WriteFault,
}
