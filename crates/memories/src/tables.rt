// What the built memories share.
ghost use Rattle.std.specs.Prelude.{◌≡◌};
ghost use Rattle.memories.specs.Tables.{Saves, image_of};
ghost use Rattle.memory.specs.Image.{Image};
ghost use Rattle.memory.specs.Refusals.{within};
ghost use Rattle.memory.specs.declared.calls.Call.{Call as AnyCall};

use memory::memory::Memory;
use memory::refusals::MemoryFault;

// A look at the words, the working ones first. It changes nothing. The pair is a public promise.
pub trait Tables: Memory {
    fn tables(&self) -> (&[u32], &[u32])
        ensures { image_of result.0.now result.1.now ≡ Self.image self.now };
}

// A memory that leaves nothing free, and whose store and flush touch no word but their own.
// So generic code knows all words after each call.
pub trait Exact: Memory {
    // What a granted call makes of the words.
    ghost does: { AnyCall → Image → Image };

    // It does that and nothing else.
    ghost exactly: { (call : AnyCall) (i j : Image) → Self.exact call i j → j ≡ does call i };

    // A word that is stored and flushed lasts, and no other word changes.
    ghost saves: { Saves does };
}

// Refuses a place at or past the size. It takes the size and not the memory: as a function over any `Memory` it would
// lead back to the methods that call it, and the checker makes no proof of that.
pub(crate) fn check_place(p: usize, size: usize) -> Result<(), MemoryFault>
    ensures { result ≡ within size p tt }
{
    if p < size {
        Ok(())
    } else {
        Err(MemoryFault { place: p })
    }
}
