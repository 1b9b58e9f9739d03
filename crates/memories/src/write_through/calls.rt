// The calls of the write-through memory.
ghost use Rattle.std.specs.Prelude.{◌≡◌, [], ◌∷◌, refl};
ghost use Rattle.memory.specs.Held.{loan};
ghost use Rattle.memories.specs.Tables.{image_of};
ghost use Rattle.memories.specs.Through.{through_does, through_held, through_image, through_level};

use crate::tables::{Exact, Tables, check_place};
use crate::write_through::WriteThrough;
use memory::memory::Memory;
use memory::refusals::MemoryFault;

impl<'a> WriteThrough<'a> {
    pub fn new(words: &'a mut [u32]) -> WriteThrough<'a>
        ensures words { through_image result ≡ image_of words.old words.old }
        ensures held { through_held result ≡ loan words.entry.ghost_name [] ∷ [] }
    {
        WriteThrough { words }
    }
}

// `load` and `evict` do what write-back's do. They are a line or two, and a type around a table that both memories
// could share would leave as many lines here, as calls of its methods.
impl<'a> Memory for WriteThrough<'a> {
    ghost image = { through_image };

    ghost exact = { λ call i j. j ≡ through_does call i };

    ghost held = { through_held };

    fn size(&self) -> usize {
        self.words.len()
    }

    fn load(&mut self, p: usize) -> Result<u32, MemoryFault> {
        check_place(p, self.words.len())?;
        Ok(self.words[p])
    }

    fn store(&mut self, p: usize, v: u32) -> Result<(), MemoryFault> {
        check_place(p, self.words.len())?;
        self.words[p] = v;
        Ok(())
    }

    fn flush(&mut self, p: usize) -> Result<(), MemoryFault> {
        check_place(p, self.size())
    }

    fn evict(&mut self, p: usize) -> Result<(), MemoryFault> {
        self.flush(p)
    }

    fn cut(&mut self) {}

    ghost level = { through_level };
}

impl<'a> Tables for WriteThrough<'a> {
    fn tables(&self) -> (&[u32], &[u32]) {
        (self.words, self.words)
    }
}

impl<'a> Exact for WriteThrough<'a> {
    ghost does = { through_does };

    ghost exactly = { λ _ _ _ done. done };

    ghost saves = { λ _ _ _ _. refl };
}
