// Why a line of a script is no command.
ghost use Rattle.std.specs.Prelude.{Some};
ghost use Rattle.script.specs.Complaints.{flaw_text};

use std::error::Error;
use std::fmt;

#[derive(Clone, Copy, PartialEq, Eq, Debug)]
pub enum Flaw {
    // the first word is the name of no command
    NoSuchCall,
    // a memory of this kind is not built
    NoSuchMemory,
    TooFewWords,
    TooManyWords,
    // this word of the line, where the first is word 0, is not a number, or one that does not fit
    NotANumber(usize),
    // the command needs a memory, and none was made before
    NoMemory,
}

// By hand, since a derived `Display` of an error has no contract.
impl fmt::Display for Flaw {
    ghost output = { λ flaw. Some (flaw_text flaw) };

    fn fmt<W: fmt::Write>(&self, f: &mut fmt::Formatter<W>) -> fmt::Result {
        match *self {
            Flaw::NoSuchCall => f.write_str("no such call"),
            Flaw::NoSuchMemory => f.write_str("no such memory: it is back or through"),
            Flaw::TooFewWords => f.write_str("too few words"),
            Flaw::TooManyWords => f.write_str("too many words"),
            Flaw::NotANumber(word) => write!(f, "word {word} is not a number that fits"),
            Flaw::NoMemory => f.write_str("a call before any memory"),
        }
    }
}

impl Error for Flaw {}
