// Lines cut into words.
ghost use Rattle.script.specs.Lines.{CutFrom, WithWord};
ghost use Rattle.std.specs.Prelude.{IfOk, OnOk};

use crate::tokens::Token;
use std::alloc::{AllocError, Global};

// A line: its words one space apart, and what each of them can stand for.
#[derive(PartialEq, Eq, Debug, Drop)]
pub struct Line {
    pub text: String,
    pub tokens: Vec<Token>,
}

impl Line {
    fn add_word(&mut self, word: &str) -> Result<(), AllocError>
        ensures { OnOk result (WithWord self.old word.now self.new) }
    {
        if !self.tokens.is_empty() {
            self.text.push(' ')?;
        }
        self.text.push_str(word)?;
        self.tokens.push(word.into())?;
        Ok(())
    }

    // Words are what white space parts.
    #[tactic(auto, using(crate::proofs::Pieces::words_in_text))]
    pub(crate) fn cut(heap: Global, text: &str) -> Result<Line, AllocError>
        ensures { IfOk result (CutFrom text.now) }
    {
        let mut line = Line {
            text: String::new(heap),
            tokens: Vec::new(heap),
        };
        for word in text.split_whitespace() {
            line.add_word(word)?;
        }
        Ok(line)
    }
}
