// Refusals: a refusal tells its number, the layer that found it, and a place.
// A fault of an upper layer holds the lower one whole, and tells what that one tells.
ghost use Rattle.std.specs.Prelude.{◌≡◌, Some};
ghost use Rattle.memory.specs.Refusals.{tells, layer_text, refusal_text};

use std::error::Error;
use std::fmt;

// The layer that finds a refusal.
#[derive(Clone, Copy, PartialEq, Eq, Debug)]
pub enum Layer {
    Memory,
    Log,
    Engine,
}

impl fmt::Display for Layer {
    ghost output = { λ l. Some (layer_text l) };

    fn fmt<W: fmt::Write>(&self, f: &mut fmt::Formatter<W>) -> fmt::Result {
        f.write_str(match self {
            Layer::Memory => "memory",
            Layer::Log => "log",
            Layer::Engine => "engine",
        })
    }
}

// What every refusal tells, whatever its layer.
#[derive(Clone, Copy, PartialEq, Eq, Debug)]
pub struct Refusal {
    // A number and no enum, since the rules name refusals by their numbers.
    pub number: u32,
    pub layer: Layer,
    pub place: usize,
}

impl fmt::Display for Refusal {
    ghost output = { λ x. Some (refusal_text x) };

    fn fmt<W: fmt::Write>(&self, f: &mut fmt::Formatter<W>) -> fmt::Result {
        write!(f, "refused {} {} {}", self.number, self.layer, self.place)
    }
}

// The memory's one refusal: the place is at or past the size.
#[derive(Clone, Copy, PartialEq, Eq, Debug)]
pub struct MemoryFault {
    pub place: usize,
}

impl MemoryFault {
    // `From` of a borrowed fault. It stays as a public promise.
    pub fn refusal(&self) -> Refusal
        ensures { result ≡ tells self.now }
    {
        Refusal::from(*self)
    }
}

impl From<MemoryFault> for Refusal {
    ghost from_gives = { λ fault refusal. refusal ≡ tells fault };

    fn from(fault: MemoryFault) -> Refusal {
        Refusal {
            number: 13,
            layer: Layer::Memory,
            place: fault.place,
        }
    }
}

// By hand, since a derived `Display` of an error has no contract.
impl fmt::Display for MemoryFault {
    ghost output = { λ x. Some (refusal_text (tells x)) };

    fn fmt<W: fmt::Write>(&self, f: &mut fmt::Formatter<W>) -> fmt::Result {
        self.refusal().fmt(f)
    }
}

impl Error for MemoryFault {}
