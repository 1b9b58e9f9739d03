// The interface of a memory.
ghost use Rattle.std.specs.Prelude.{◌≡◌, List, []};
ghost use Rattle.memory.specs.Held.{Loan};
ghost use Rattle.memory.specs.Image.{Image, Level, size_of, word_at};
ghost use Rattle.memory.specs.Refusals.{within};
ghost use Rattle.memory.specs.Calls.{Done, Leaves, answer_of};
ghost use Rattle.memory.specs.declared.calls.Call.TheVariants.{Load, Store, Flush, Evict, Cut};
ghost use Rattle.memory.specs.declared.calls.Call.{Call as AnyCall};

use crate::calls::Call;
use crate::refusals::MemoryFault;

pub trait Memory {
    // The working and the lasting words.
    ghost image: { Self → Image };

    // What a granted call of this memory does to the words, where it is less free than the rules.
    ghost exact: { AnyCall → Image → Image → Type 0 };

    // The tables that are lent to it. No call exchanges one for another, or changes a word of one that is no part of
    // the memory, so a caller knows its tables again when the loan ends. Each call says so in a clause of its own,
    // since an invariant of a type cannot compare a value before a call and after it.
    ghost held: { Self → List Loan } = { λ _. [] };

    // The number of places, which never changes.
    fn size(&self) -> usize
        ensures { result ≡ size_of (image self.now) };

    // Working word p. Like each call it says its own answer, and what is the same in several is one word, `within`.
    fn load(&mut self, p: usize) -> Result<u32, MemoryFault>
        ensures answer { result ≡ within (size_of (image self.old)) p (word_at (image self.old).working p) }
        ensures words { Leaves exact (Load p) (image self.old) result (image self.new) }
        ensures held { held self.new ≡ held self.old };

    // Makes working word p equal v.
    fn store(&mut self, p: usize, v: u32) -> Result<(), MemoryFault>
        ensures answer { result ≡ within (size_of (image self.old)) p tt }
        ensures words { Leaves exact (Store p v) (image self.old) result (image self.new) }
        ensures held { held self.new ≡ held self.old };

    // Makes lasting word p equal working word p.
    fn flush(&mut self, p: usize) -> Result<(), MemoryFault>
        ensures answer { result ≡ within (size_of (image self.old)) p tt }
        ensures words { Leaves exact (Flush p) (image self.old) result (image self.new) }
        ensures held { held self.new ≡ held self.old };

    // Lets lasting words drift.
    fn evict(&mut self, p: usize) -> Result<(), MemoryFault>
        ensures answer { result ≡ within (size_of (image self.old)) p tt }
        ensures words { Leaves exact (Evict p) (image self.old) result (image self.new) }
        ensures held { held self.new ≡ held self.old };

    // The power fails and comes back: the working words are what lasted.
    fn cut(&mut self)
        ensures words { Done exact Cut (image self.old) (image self.new) }
        ensures held { held self.new ≡ held self.old };

    // There are as many lasting words as working ones.
    ghost level: { (m : Self) → Level (image m) };
}

// Makes one call: a load answers its word, the others nothing.
// A call is a value, which a script holds and prints, so there is a match here: a closure could only be called.
pub fn perform<M: Memory>(memory: &mut M, call: Call) -> Result<Option<u32>, MemoryFault>
    ensures answer { result ≡ answer_of call (M.image memory.old) }
    ensures words { Leaves M.exact call (M.image memory.old) result (M.image memory.new) }
    ensures size { size_of (M.image memory.new) ≡ size_of (M.image memory.old) }
    ensures held { M.held memory.new ≡ M.held memory.old }
{
    match call {
        Call::Load(p) => memory.load(p).map(Some),
        Call::Store(p, v) => memory.store(p, v).map(|()| None),
        Call::Flush(p) => memory.flush(p).map(|()| None),
        Call::Evict(p) => memory.evict(p).map(|()| None),
        Call::Cut => {
            memory.cut();
            Ok(None)
        }
    }
}
