// What a line of a script asks for.
ghost use Rattle.std.specs.Option.{ok_or};
ghost use Rattle.std.specs.Prelude.{◌≡◌, Some};
ghost use Rattle.script.specs.Language.{kind_name, line_text, words_of};
ghost use Rattle.script.specs.Tokens.{kind_of, verb_of};
ghost use Rattle.script.specs.declared.flaws.Flaw.TheVariants.{NoSuchCall, NoSuchMemory};

use crate::flaws::Flaw;
use memory::calls::Call;
use std::fmt;
use std::str::FromStr;

// The memories that a script can have made.
#[derive(Clone, Copy, PartialEq, Eq, Debug)]
pub enum Kind {
    Back,
    Through,
}

impl FromStr for Kind {
    type Err = Flaw;

    ghost from_str_gives = { λ word kind. kind ≡ ok_or (kind_of word) NoSuchMemory };

    fn from_str(word: &str) -> Result<Kind, Flaw> {
        match word {
            "back" => Ok(Kind::Back),
            "through" => Ok(Kind::Through),
            _ => Err(Flaw::NoSuchMemory),
        }
    }
}

impl fmt::Display for Kind {
    ghost output = { λ kind. Some (kind_name kind) };

    fn fmt<W: fmt::Write>(&self, f: &mut fmt::Formatter<W>) -> fmt::Result {
        f.write_str(match self {
            Kind::Back => "back",
            Kind::Through => "through",
        })
    }
}

// The first word of a line that is a command.
#[derive(Clone, Copy, PartialEq, Eq, Debug)]
pub enum Verb {
    Memory,
    Load,
    Store,
    Flush,
    Evict,
    Cut,
    Size,
    Words,
}

impl FromStr for Verb {
    type Err = Flaw;

    ghost from_str_gives = { λ word verb. verb ≡ ok_or (verb_of word) NoSuchCall };

    fn from_str(word: &str) -> Result<Verb, Flaw> {
        match word {
            "memory" => Ok(Verb::Memory),
            "load" => Ok(Verb::Load),
            "store" => Ok(Verb::Store),
            "flush" => Ok(Verb::Flush),
            "evict" => Ok(Verb::Evict),
            "cut" => Ok(Verb::Cut),
            "size" => Ok(Verb::Size),
            "words" => Ok(Verb::Words),
            _ => Err(Flaw::NoSuchCall),
        }
    }
}

#[derive(Clone, Copy, PartialEq, Eq, Debug)]
pub enum Command {
    // a new memory of so many places, all words zero
    Memory(Kind, usize),
    // a call of the memory
    Call(Call),
    // the memory's size
    Size,
    // both lists of words
    Words,
}

impl fmt::Display for Command {
    ghost output = { λ c. Some (line_text (words_of c)) };

    fn fmt<W: fmt::Write>(&self, f: &mut fmt::Formatter<W>) -> fmt::Result {
        match *self {
            Command::Memory(kind, places) => write!(f, "memory {kind} {places}"),
            Command::Call(Call::Load(p)) => write!(f, "load {p}"),
            Command::Call(Call::Store(p, v)) => write!(f, "store {p} {v}"),
            Command::Call(Call::Flush(p)) => write!(f, "flush {p}"),
            Command::Call(Call::Evict(p)) => write!(f, "evict {p}"),
            Command::Call(Call::Cut) => f.write_str("cut"),
            Command::Size => f.write_str("size"),
            Command::Words => f.write_str("words"),
        }
    }
}
