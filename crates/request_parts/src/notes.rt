// The notes: what is told of a request that was not carried out.
ghost use Rattle.std.specs.Prelude.{◌≡◌, ◌≢◌, IfOk, string_bytes};
ghost use Rattle.bddl_model.specs.Notes.{place_note, check_note, formula_note, line_note, cert_text_note, cert_note, node_note, check_words, fault_words, side_name, axis_name, item_text, limit_words};
ghost use Rattle.request_parts.specs.Ends.{NotCut, content_told, refusal_told, text_name};
ghost use Rattle.bddl_model.specs.declared.check.CheckFault.TheVariants.{NoMemory as no_fault};

use crate::found_faults::{CertTextFault, FormulaFault, GameFault, NodeFault};
use crate::refusal::{Content, FileEnd, GameText, Refusal};
use bddl_model::{
    Axis, CertFault, CertReadFault, CheckFault, GREATEST_SIDE, Item, LexFault, Part, Place, QFault,
    ReadFault, Side,
};
use std::alloc::{AllocError, Global};

/// The exit status that a refusal ends with.
pub fn status_of(refusal: Refusal) -> u8
    ensures status { result ≡ (refusal_told refusal).status }
    ensures not_cut { NotCut result }
{
    match refusal {
        Refusal::NoRequest => 1,
        Refusal::File {
            end: FileEnd::ReadFault,
            ..
        } => 3,
        Refusal::Content(Content::CertText(_) | Content::Cert(_)) => 6,
        Refusal::File { .. } | Refusal::Content(_) => 2,
    }
}

/// The line that tells a refusal.
pub fn note_of(alloc: Global, refusal: Refusal) -> Result<String, AllocError>
    ensures { IfOk result (λ text. string_bytes text ≡ (refusal_told refusal).note) }
{
    match refusal {
        Refusal::NoRequest => format!(in alloc; "no such request\n"),
        Refusal::File { word, end } => file_text(alloc, word, end),
        Refusal::Content(content) => content_text(alloc, content),
    }
}

fn file_text(alloc: Global, word: usize, end: FileEnd) -> Result<String, AllocError>
    ensures { IfOk result (λ text. string_bytes text ≡ (refusal_told (Refusal.File word end)).note) }
{
    match end {
        FileEnd::ReadFault => format!(in alloc; "word {word}: read fault\n"),
        FileEnd::TooLong(most) => format!(in alloc; "word {word}: longer than {most} bytes\n"),
    }
}

fn content_text(alloc: Global, content: Content) -> Result<String, AllocError>
    ensures { IfOk result (λ text. string_bytes text ≡ (content_told content).note) }
{
    match content {
        Content::Text { text, place, fault } => {
            place_text(alloc, text, place, fault_words(fault))
        }
        Content::Check(fault) => check_text(alloc, fault),
        Content::Formula(fault) => formula_text(alloc, fault),
        Content::CertText(fault) => cert_read_text(alloc, fault),
        Content::Cert(fault) => cert_text(alloc, fault),
    }
}

fn place_text(
    alloc: Global,
    text: GameText,
    place: Place,
    words: &str,
) -> Result<String, AllocError>
    ensures { IfOk result (λ line. string_bytes line ≡ place_note (text_name text) place words.now) }
{
    let line = place.line;
    let column = place.column;
    match text {
        GameText::Domain => format!(in alloc; "domain:{line}:{column}: {words}\n"),
        GameText::Problem => format!(in alloc; "problem:{line}:{column}: {words}\n"),
    }
}

fn fault_words(fault: ReadFault) -> &'static str
    ensures { result.now ≡ fault_words fault }
{
    match fault {
        ReadFault::Lex(LexFault::BadByte { .. }) => "bad byte",
        ReadFault::Lex(LexFault::NameTooLong { .. }) => "name too long",
        ReadFault::Lex(LexFault::NumberTooLong { .. }) => "number too long",
        ReadFault::Unexpected { .. } => "unexpected word",
        ReadFault::EndsEarly { .. } => "text ends early",
        ReadFault::Lex(LexFault::NoMemory) | ReadFault::NoMemory => "",
    }
}

// The line that tells a fault of a formula's text.
fn formula_text(alloc: Global, fault: FormulaFault) -> Result<String, AllocError>
    ensures { IfOk result (λ line. string_bytes line ≡ formula_note fault.fault) }
{
    match fault.fault {
        QFault::NoProblemLine { line } => line_text(alloc, line, "no problem line"),
        QFault::BadWord { line } => line_text(alloc, line, "bad word"),
        QFault::OutOfRange { line, literal } => {
            let words = format!(in alloc; "literal {literal} is out of range")?;
            line_text(alloc, line, &words)
        }
        QFault::BoundTwice { line, var } => {
            let words = format!(in alloc; "variable {var} is bound twice")?;
            line_text(alloc, line, &words)
        }
        QFault::AfterMatrix { line } => line_text(alloc, line, "quantifier after a clause"),
        QFault::EndsEarly { line } => line_text(alloc, line, "text ends early"),
        QFault::TooManyVariables { line, said } => {
            let words = format!(in alloc; "{said} variables are over 16777215")?;
            line_text(alloc, line, &words)
        }
        QFault::CountDiffers { said, found } => {
            format!(in alloc; "qdimacs: count differs: said {said}, found {found}\n")
        }
        QFault::NoMemory => unreachable!(),
    }
}

fn line_text(alloc: Global, line: u32, words: &str) -> Result<String, AllocError>
    ensures { IfOk result (λ text. string_bytes text ≡ line_note line words.now) }
{
    format!(in alloc; "qdimacs:{line}: {words}\n")
}

// The line that tells a fault of a certificate's text.
fn cert_read_text(alloc: Global, fault: CertTextFault) -> Result<String, AllocError>
    ensures { IfOk result (λ line. string_bytes line ≡ cert_text_note fault.fault) }
{
    match fault.fault {
        CertReadFault::NotHeader => format!(in alloc; "certificate: bad header\n"),
        CertReadFault::NotALine { node } => node_text(alloc, node, "bad line"),
        CertReadFault::EndsEarly { node } => node_text(alloc, node, "text ends early"),
        CertReadFault::BadNext { node } => node_text(alloc, node, "next node is not later"),
        CertReadFault::Unused { node } => node_text(alloc, node, "not used"),
        CertReadFault::NotReached { node } => node_text(alloc, node, "not reached"),
        CertReadFault::CountDiffers { said, found } => {
            format!(in alloc; "certificate: count differs: said {said}, found {found}\n")
        }
        CertReadFault::NoMemory => unreachable!(),
    }
}

// The line that tells a fault of a certificate.
fn cert_text(alloc: Global, fault: NodeFault) -> Result<String, AllocError>
    ensures { IfOk result (λ line. string_bytes line ≡ cert_note fault.fault) }
{
    match fault.fault {
        CertFault::TwoPlaces { node } => node_text(alloc, node, "two places"),
        CertFault::WrongSide { node } => node_text(alloc, node, "wrong side"),
        CertFault::WhiteGoalStands { node } => node_text(alloc, node, "white goal stands"),
        CertFault::PliesSpent { node } => node_text(alloc, node, "plies spent"),
        CertFault::IllegalMove { node } => node_text(alloc, node, "illegal move"),
        CertFault::GoalDoesNotStand { node } => node_text(alloc, node, "goal does not stand"),
        CertFault::Stuck { node } => node_text(alloc, node, "white is stuck"),
        CertFault::RepliesDiffer { node, place } => {
            let words = format!(in alloc; "replies differ at {place}")?;
            node_text(alloc, node, &words)
        }
        CertFault::NoMemory => unreachable!(),
    }
}

fn node_text(alloc: Global, node: u64, words: &str) -> Result<String, AllocError>
    ensures { IfOk result (λ text. string_bytes text ≡ node_note node words.now) }
{
    format!(in alloc; "certificate: node {node}: {words}\n")
}

// The line that tells a fault of a game.
fn check_text(alloc: Global, fault: GameFault) -> Result<String, AllocError>
    ensures { IfOk result (λ line. string_bytes line ≡ check_note fault.fault) }
{
    let words = check_words(alloc, fault.fault)?;
    format!(in alloc; "check: {words}\n")
}

fn check_words(alloc: Global, fault: CheckFault) -> Result<String, AllocError>
    requires { fault ≢ no_fault }
    ensures { IfOk result (λ words. string_bytes words ≡ check_words fault) }
{
    match fault {
        CheckFault::SizeOutOfRange { axis, said } => {
            format!(in alloc; "{} {said} is not 1 to {GREATEST_SIDE}", axis_name(axis))
        }
        CheckFault::DepthOutOfRange { said } => format!(in alloc; "depth {said} is over 31"),
        CheckFault::TooManyActions { side, found } => {
            format!(in alloc; "{} actions: {found} are over 8", side_name(side))
        }
        CheckFault::TooManyAtoms { item, part, found } => {
            let item = item_text(alloc, item)?;
            format!(in alloc; "{item}: {found} {}", limit_words(part))
        }
        CheckFault::SameName { item, earlier } => {
            let item = item_text(alloc, item)?;
            format!(in alloc; "{item}: same name as action {earlier}")
        }
        CheckFault::NumberOffBoard { item, said } => {
            let item = item_text(alloc, item)?;
            format!(in alloc; "{item}: number {said} is off the board")
        }
        CheckFault::NeverOnBoard { item } => {
            let item = item_text(alloc, item)?;
            format!(in alloc; "{item}: never on the board")
        }
        CheckFault::CellTwice { item, x, y } => {
            let item = item_text(alloc, item)?;
            format!(in alloc; "{item}: cell {x} {y} is named twice")
        }
        CheckFault::TooManyLines { side, found } => {
            format!(in alloc; "{} goals: {found} are over 256", side_name(side))
        }
        CheckFault::NoMemory => unreachable!(),
    }
}

// The kind of an item, and its number.
fn item_text(alloc: Global, item: Item) -> Result<String, AllocError>
    ensures { IfOk result (λ text. string_bytes text ≡ item_text item) }
{
    match item {
        Item::Action { side, number } => {
            format!(in alloc; "{} action {number}", side_name(side))
        }
        Item::Init { number } => format!(in alloc; "init atom {number}"),
        Item::Line { side, number } => format!(in alloc; "{} goal {number}", side_name(side)),
    }
}

fn side_name(side: Side) -> &'static str
    ensures { result.now ≡ side_name side }
{
    match side {
        Side::Black => "black",
        Side::White => "white",
    }
}

fn axis_name(axis: Axis) -> &'static str
    ensures { result.now ≡ axis_name axis }
{
    match axis {
        Axis::Width => "width",
        Axis::Height => "height",
    }
}

// What a part has too many of.
fn limit_words(part: Part) -> &'static str
    ensures { result.now ≡ limit_words part }
{
    match part {
        Part::Before => "preconditions are over 8",
        Part::Effects => "effects are over 4",
        Part::Line => "atoms are over 16",
    }
}
