// A word of a line by what it can stand for.
ghost use Rattle.std.specs.Prelude.{◌≡◌};
ghost use Rattle.script.specs.Tokens.{token_of};

use crate::commands::{Kind, Verb};

#[derive(Clone, Copy, PartialEq, Eq, Debug)]
pub enum Token {
    // None of the others, or a number that is too large. With an `Option<Token>` for it every other token
    // would stand in a `Some`.
    Other,
    // It begins with '#'.
    Comment,
    Verb(Verb),
    Kind(Kind),
    Number(u64),
}

impl From<&str> for Token {
    ghost from_gives = { λ word token. token ≡ token_of word.now };

    #[tactic(auto, using(crate::proofs::Numbers::parsed))]
    fn from(word: &str) -> Token {
        if word.starts_with('#') {
            return Token::Comment;
        }
        if let Ok(verb) = word.parse() {
            return Token::Verb(verb);
        }
        if let Ok(kind) = word.parse() {
            return Token::Kind(kind);
        }
        word.parse().map_or(Token::Other, Token::Number)
    }
}
