// Reading a whole script, before any of it is carried out.
ghost use Rattle.std.specs.Prelude.{◌≡◌, MatchResult, Some};
ghost use Rattle.script.specs.Complaints.{unread_text};
ghost use Rattle.script.specs.Reading.{ReadsBack};
ghost use Rattle.script.specs.Scripts.{RefusedFor, Understood};
ghost use Rattle.script.specs.declared.read.Unread.TheVariants.{NoRoom};

use crate::flaws::Flaw;
use crate::lines::Line;
use crate::reading::understand;
use crate::scripts::{Script, Step};
use std::alloc::{AllocError, Global};
use std::error::Error;
use std::fmt;

// Why a script is not carried out.
#[derive(Clone, Copy, PartialEq, Eq, Debug)]
pub enum Unread {
    // the line with this index is refused
    Line(usize, Flaw),
    // there is no memory left to hold the script
    NoRoom,
}

// Of every error that is one of want of memory, with the value that found no room or without.
// By hand, since a derived `From` has no contract.
impl<E: Into<AllocError> + Drop> From<E> for Unread {
    ghost from_gives = { λ _ r. r ≡ NoRoom };

    fn from(_error: E) -> Unread {
        Self::NoRoom
    }
}

// By hand, since a derived `Display` of an error has no contract. People count lines from 1.
impl fmt::Display for Unread {
    ghost output = { λ unread. Some (unread_text unread) };

    fn fmt<W: fmt::Write>(&self, f: &mut fmt::Formatter<W>) -> fmt::Result {
        match *self {
            Unread::Line(index, flaw) => write!(f, "line {}: {flaw}", index.saturating_add(1)),
            Unread::NoRoom => f.write_str("no memory left to hold the script"),
        }
    }
}

impl Error for Unread {}

// Reads a script: it is understood whole, or the first line that is refused is told.
// Every command that is written out as words is read back as that command.
#[tactic(auto, using(crate::proofs::Back::reads_back, crate::proofs::Turns::so_far_none, crate::proofs::Turns::so_far_more, crate::proofs::Turns::so_far_flaw))]
pub fn read_script(heap: Global, text: &str) -> Result<Script, Unread>
    ensures read { MatchResult result (λ script. Understood text.now script) (RefusedFor text.now) }
    ensures back { ReadsBack }
{
    let mut steps = Vec::new(heap);
    // It follows from the steps, and one `|=` says it more plainly than a search of them for each line.
    let mut ready = false;
    let mut refused = None;
    for line in text.lines() {
        let line = Line::cut(heap, line)?;
        // After a refused line the others are cut and let go, as the promise speaks of all lines of the text.
        if refused.is_some() {
            continue;
        }
        match understand(ready, &line.tokens) {
            Ok(command) => {
                ready |= command.is_some();
                steps.push(Step { line, command })?;
            }
            // There is a step for each line before this one, so that their number is its index.
            Err(flaw) => refused = Some((steps.len(), flaw)),
        }
    }
    match refused {
        Some((index, flaw)) => Err(Unread::Line(index, flaw)),
        None => Ok(Script { steps }),
    }
}
