// The requests `help` and `version`.
ghost use Rattle.bddl_model.specs.About.{help_text, version_text};
ghost use Rattle.bddl_model.specs.Outcome.{Says};
ghost use Rattle.io_edge.specs.Outside.{Counts};
ghost use Rattle.request_parts.specs.Ends.{Writes, content_told, is_write_fault};

use crate::refusal::{Close, Content, Stop};
use io_edge::{Sink, put_text};

/// Writes what the requests and the statuses are.
pub fn help<K: Sink>(out: &mut K) -> Result<Close, Stop<Content>>
    ensures written { Writes content_told (Says help_text) (K.written out.old) (K.written out.new) result }
    ensures cause { Counts (K.faults out.old) (K.faults out.new) (is_write_fault result) }
{
    put_text(
        out,
        b"bddl compile DOMAIN PROBLEM   writes the formula of a game\n\
        bddl solve DOMAIN PROBLEM N   decides a game, in at most N steps\n\
        bddl qsolve FORMULA N         decides a formula, in at most N steps\n\
        bddl certify DOMAIN PROBLEM N writes a strategy of Black, found in at most N steps\n\
        bddl check DOMAIN PROBLEM CERTIFICATE\n\
        \x20                             tells whether a strategy wins\n\
        bddl recert DOMAIN PROBLEM CERTIFICATE\n\
        \x20                             writes it with one node for each place\n\
        bddl play DOMAIN PROBLEM CERTIFICATE WHO START\n\
        \x20                             plays a strategy against you (WHO 0), the first\n\
        \x20                             move (1), or moves that START decides (2)\n\
        bddl trial START N            makes two games from a number, and decides the small one\n\
        bddl fmt-domain DOMAIN        writes the canonical text of a domain\n\
        bddl fmt-problem PROBLEM      writes the canonical text of a problem\n\
        bddl help, bddl --help        writes this text\n\
        bddl version, bddl --version  writes the name, and the kit that proved the program\n\
        \n\
        0   the text was written\n\
        1   there is no such request\n\
        2   a file is refused\n\
        3   a file could not be read\n\
        4   a write failed\n\
        5   memory ran out\n\
        6   a certificate is refused\n\
        7   no reply came\n\
        8   a reply is none of the moves\n\
        10  the game is won, or the formula is true\n\
        20  the game is not won, or the formula is false\n\
        30  the steps are spent\n",
    )?;
    Ok(Close::Done)
}

/// Writes the program's name and the kit that proved it.
pub fn version<K: Sink>(out: &mut K) -> Result<Close, Stop<Content>>
    ensures written { Writes content_told (Says version_text) (K.written out.old) (K.written out.new) result }
    ensures cause { Counts (K.faults out.old) (K.faults out.new) (is_write_fault result) }
{
    put_text(out, b"bddl, rattle-kit-13f logic dac8208d650f15bf\n")?;
    Ok(Close::Done)
}
