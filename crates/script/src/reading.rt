// Reading a line's words as a command.
ghost use Rattle.std.specs.Prelude.{◌≡◌};
ghost use Rattle.script.specs.Reading.{Numbered, kind_in, needed, understood, words_in};

use crate::commands::{Command, Kind, Verb};
use crate::flaws::Flaw;
use crate::tokens::Token;
use memory::calls::Call;

impl TryFrom<Token> for Kind {
    type Error = Flaw;

    ghost try_from_gives = { λ token kind. kind ≡ kind_in token };

    fn try_from(token: Token) -> Result<Kind, Flaw> {
        match token {
            Token::Kind(kind) => Ok(kind),
            _ => Err(Flaw::NoSuchMemory),
        }
    }
}

impl Token {
    // The number that the token writes. Its index in the line goes with it, since a complaint tells it.
    fn number<N: TryFrom<u64>>(self, index: usize) -> Result<N, Flaw>
    where
        N::Error: Drop,
        ensures { Numbered N.try_from_gives index self result }
    {
        match self {
            Token::Number(n) => N::try_from(n).map_err(|_| Flaw::NotANumber(index)),
            _ => Err(Flaw::NotANumber(index)),
        }
    }
}

impl Verb {
    // How many words a line with this verb has, the verb included. `understand` has as many in its patterns;
    // the number itself is for complaints.
    fn words(self) -> usize
        ensures { result ≡ words_in self }
    {
        match self {
            Verb::Memory | Verb::Store => 3,
            Verb::Load | Verb::Flush | Verb::Evict => 2,
            Verb::Cut | Verb::Size | Verb::Words => 1,
        }
    }
}

// Only a memory line can stand before any memory is made.
fn check_ready(ready: bool, command: Command) -> Result<Option<Command>, Flaw>
    ensures { result ≡ needed ready command }
{
    if ready || matches!(command, Command::Memory(_, _)) {
        Ok(Some(command))
    } else {
        Err(Flaw::NoMemory)
    }
}

// The command that a line's words say, none for a line to pass over, or why it is refused.
// `ready` tells whether a memory was made before.
pub(crate) fn understand(ready: bool, tokens: &[Token]) -> Result<Option<Command>, Flaw>
    ensures { result ≡ understood ready tokens.now }
{
    let command = match tokens {
        [] | [Token::Comment, ..] => return Ok(None),
        [Token::Verb(Verb::Memory), kind, places] => Command::Memory(
            Kind::try_from(*kind)?,
            places.number(2)?,
        ),
        [Token::Verb(Verb::Load), p] => Command::Call(Call::Load(p.number(1)?)),
        [Token::Verb(Verb::Store), p, v] => Command::Call(Call::Store(p.number(1)?, v.number(2)?)),
        [Token::Verb(Verb::Flush), p] => Command::Call(Call::Flush(p.number(1)?)),
        [Token::Verb(Verb::Evict), p] => Command::Call(Call::Evict(p.number(1)?)),
        [Token::Verb(Verb::Cut)] => Command::Call(Call::Cut),
        [Token::Verb(Verb::Size)] => Command::Size,
        [Token::Verb(Verb::Words)] => Command::Words,
        [Token::Verb(verb), ..] if tokens.len() < verb.words() => return Err(Flaw::TooFewWords),
        [Token::Verb(_), ..] => return Err(Flaw::TooManyWords),
        _ => return Err(Flaw::NoSuchCall),
    };
    check_ready(ready, command)
}
