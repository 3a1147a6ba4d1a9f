// How a request ends.
ghost use Rattle.std.specs.Prelude.{◌≡◌, IfOk, string_bytes};
ghost use Rattle.request_parts.specs.Ends.{NotCut, close_note, close_status};
ghost use Rattle.request_parts.specs.Stops.{IsCertStopOf, IsCertTextStopOf, IsFormulaStopOf, IsStopOf, stop_of_content, stop_of_sink};
ghost use Rattle.request_parts.specs.declared.refusal.Stop.TheVariants.{NoMemory as out_of_memory};

use crate::found_faults::{CertTextFault, FormulaFault, GameFault, NodeFault};
use bddl_model::{CertFault, CertReadFault, CheckFault, NoMemory, Place, QFault, ReadFault};
use io_edge::SinkEnd;
use std::alloc::{AllocError, AllocFailed, Global};

/// How a request ended that was carried out.
#[derive(Clone, Copy)]
pub enum Close {
    /// The text was written.
    Done,
    /// Black wins, or the formula is true.
    Yes,
    /// Black doesn't win, or the formula is false.
    No,
    /// The steps are spent.
    Spent,
    /// There is no certificate, since Black doesn't win. This is noted.
    NoStrategy,
    /// The steps are spent, and no certificate was found. This is noted.
    NotFound,
    /// A play ended where no reply came. This is noted.
    Gone,
    /// A play ended with a reply that is none of so many moves. This is noted.
    BadReply { number: u64, count: u64 },
}

impl Close {
    /// The exit status.
    pub fn status(self) -> u8
        ensures status { result ≡ close_status self }
        ensures not_cut { NotCut result }
    {
        match self {
            Close::Done => 0,
            Close::Gone => 7,
            Close::BadReply { .. } => 8,
            Close::Yes => 10,
            Close::No | Close::NoStrategy => 20,
            Close::Spent | Close::NotFound => 30,
        }
    }

    /// The line that is noted, or none.
    pub fn note(self, alloc: Global) -> Result<String, AllocError>
        ensures { IfOk result (λ line. string_bytes line ≡ close_note self) }
    {
        match self {
            Close::Done | Close::Yes | Close::No | Close::Spent => Ok(String::new(alloc)),
            Close::NoStrategy => format!(in alloc; "no win\n"),
            Close::NotFound => format!(in alloc; "spent\n"),
            Close::Gone => format!(in alloc; "opponent gone\n"),
            Close::BadReply { number, count } => {
                format!(in alloc; "reply {number} of {count}\n")
            }
        }
    }
}

/// The two texts of a game.
#[derive(Clone, Copy)]
pub enum GameText {
    Domain,
    Problem,
}

/// What is wrong with what stands in the files of a request.
#[derive(Clone, Copy)]
pub enum Content {
    /// The text is none of its grammar, as this place shows.
    Text {
        text: GameText,
        place: Place,
        fault: ReadFault,
    },
    Check(GameFault),
    Formula(FormulaFault),
    CertText(CertTextFault),
    Cert(NodeFault),
}

/// What is wrong with a file, whatever stands in it.
#[derive(Clone, Copy)]
pub enum FileEnd {
    ReadFault,
    /// It has more bytes than this.
    TooLong(u64),
}

/// Why a request is not carried out, as its note tells.
#[derive(Clone, Copy)]
pub enum Refusal {
    NoRequest,
    /// The number of the word that names the file, the request's own word being the first.
    File { word: usize, end: FileEnd },
    Content(Content),
}

/// Why a request was not carried out to its end.
#[derive(Clone, Copy)]
pub enum Stop<R> {
    Refused(R),
    WriteFault,
    NoMemory,
}

impl<R> From<SinkEnd> for Stop<R> {
    ghost from_gives = { λ end stop. stop ≡ stop_of_sink end };

    fn from(end: SinkEnd) -> Self {
        match end {
            SinkEnd::Failed => Stop::WriteFault,
            SinkEnd::NoMemory => Stop::NoMemory,
        }
    }
}

impl<R> From<NoMemory> for Stop<R> {
    ghost from_gives = { λ _ stop. stop ≡ out_of_memory };

    fn from(_: NoMemory) -> Self {
        Stop::NoMemory
    }
}

impl<R> From<AllocError> for Stop<R> {
    ghost from_gives = { λ _ stop. stop ≡ out_of_memory };

    fn from(_: AllocError) -> Self {
        Stop::NoMemory
    }
}

impl<R, T: Drop> From<AllocFailed<T>> for Stop<R> {
    ghost from_gives = { λ _ stop. stop ≡ out_of_memory };

    fn from(_: AllocFailed<T>) -> Self {
        Stop::NoMemory
    }
}

impl From<CheckFault> for Stop<Content> {
    ghost from_gives = { λ fault stop. IsStopOf fault stop };

    fn from(fault: CheckFault) -> Self {
        match fault {
            CheckFault::NoMemory => Stop::NoMemory,
            found => Stop::Refused(Content::Check(GameFault { fault: found })),
        }
    }
}

impl From<QFault> for Stop<Content> {
    ghost from_gives = { λ fault stop. IsFormulaStopOf fault stop };

    fn from(fault: QFault) -> Self {
        match fault {
            QFault::NoMemory => Stop::NoMemory,
            found => Stop::Refused(Content::Formula(FormulaFault { fault: found })),
        }
    }
}

impl From<CertReadFault> for Stop<Content> {
    ghost from_gives = { λ fault stop. IsCertTextStopOf fault stop };

    fn from(fault: CertReadFault) -> Self {
        match fault {
            CertReadFault::NoMemory => Stop::NoMemory,
            found => Stop::Refused(Content::CertText(CertTextFault { fault: found })),
        }
    }
}

impl From<CertFault> for Stop<Content> {
    ghost from_gives = { λ fault stop. IsCertStopOf fault stop };

    fn from(fault: CertFault) -> Self {
        match fault {
            CertFault::NoMemory => Stop::NoMemory,
            found => Stop::Refused(Content::Cert(NodeFault { fault: found })),
        }
    }
}

impl From<Stop<Content>> for Stop<Refusal> {
    ghost from_gives = { λ stop more. more ≡ stop_of_content stop };

    fn from(stop: Stop<Content>) -> Self {
        match stop {
            Stop::Refused(content) => Stop::Refused(Refusal::Content(content)),
            Stop::WriteFault => Stop::WriteFault,
            Stop::NoMemory => Stop::NoMemory,
        }
    }
}
