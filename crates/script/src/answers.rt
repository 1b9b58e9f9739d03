// What a command answers, and how that is shown.
ghost use Rattle.std.specs.Prelude.{◌≡◌, Some};
ghost use Rattle.script.specs.Answers.{Asked, answer_text, answered, word_answer};

use crate::commands::Command;
use memory::memory::{Memory, perform};
use memory::refusals::MemoryFault;
use std::fmt;

// A call answers nothing or a word. They are variants and no `Option`, as the size is a third answer beside them.
#[derive(Clone, Copy, PartialEq, Eq, Debug)]
pub enum Answer {
    Done,
    Value(u32),
    Size(usize),
}

impl fmt::Display for Answer {
    ghost output = { λ a. Some (answer_text a) };

    fn fmt<W: fmt::Write>(&self, f: &mut fmt::Formatter<W>) -> fmt::Result {
        match *self {
            Answer::Done => f.write_str("ok"),
            Answer::Value(word) => write!(f, "value {word}"),
            Answer::Size(places) => write!(f, "{places}"),
        }
    }
}

// What a call of a memory gave: a load its word, the others nothing.
impl From<Option<u32>> for Answer {
    ghost from_gives = { λ word answer. answer ≡ word_answer word };

    fn from(word: Option<u32>) -> Answer {
        word.map_or(Answer::Done, Answer::Value)
    }
}

// Asks a memory what a command says. A memory line and `words` leave it as it is.
// A command is a value, which a script holds and prints, so there is a match here and no closure.
pub fn ask<M: Memory>(memory: &mut M, command: Command) -> Result<Answer, MemoryFault>
    ensures answer { result ≡ answered command (M.image memory.old) }
    ensures words { Asked M.exact command (M.image memory.old) (M.image memory.new) }
    ensures held { M.held memory.new ≡ M.held memory.old }
{
    Ok(match command {
        Command::Memory(_, _) | Command::Words => Answer::Done,
        Command::Size => Answer::Size(memory.size()),
        Command::Call(call) => perform(memory, call)?.into(),
    })
}
