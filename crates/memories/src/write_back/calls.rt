// The calls of the write-back memory.
ghost use Rattle.std.specs.Prelude.{◌≡◌, ◌<◌, [], ◌∷◌, length};
ghost use Rattle.memories.specs.Back.{back_does, back_held, back_image, back_level, back_saves, copied};
ghost use Rattle.memory.specs.declared.calls.Call.TheVariants.{Store};
ghost use Rattle.memory.specs.Held.{loan};
ghost use Rattle.memories.specs.Tables.{front, image_of, rest_of, shorter};

use crate::tables::{Exact, Tables, check_place};
use crate::write_back::WriteBack;
use memory::memory::Memory;
use memory::refusals::MemoryFault;

impl<'w, 'l> WriteBack<'w, 'l> {
    // A memory on two tables of any lengths; its size is the shorter. It holds them until the loan ends, and then the
    // caller knows them again, since each call keeps what is on loan.
    // They are two parameters, as the caller's variables are two: a struct of both would be `WriteBack` itself.
    #[tactic(auto, using(crate::proofs::Fronts::level_whole))]
    pub fn new(working: &'w mut [u32], lasting: &'l mut [u32]) -> WriteBack<'w, 'l>
        ensures words { back_image result ≡ image_of (front working.old lasting.old) (front lasting.old working.old) }
        ensures whole { length lasting.old ≡ length working.old → back_image result ≡ image_of working.old lasting.old }
        ensures held { back_held result ≡ loan working.entry.ghost_name (rest_of working.old lasting.old) ∷ loan lasting.entry.ghost_name (rest_of lasting.old working.old) ∷ [] }
    {
        let size = working.len().min(lasting.len());
        WriteBack {
            working,
            lasting,
            size,
        }
    }

    // Makes working word p equal v.
    #[tactic(auto, using(crate::proofs::Fronts::working_set))]
    fn write(&mut self, p: usize, v: u32)
        requires { p < shorter self.old.working.now self.old.lasting.now }
        ensures words { back_image self.new ≡ back_does (Store p v) (back_image self.old) }
        ensures held { back_held self.new ≡ back_held self.old }
    {
        self.working[p] = v;
    }

    // Makes lasting word p equal working word p.
    #[tactic(auto, using(crate::proofs::Fronts::lasting_set))]
    fn keep(&mut self, p: usize)
        requires { p < shorter self.old.working.now self.old.lasting.now }
        ensures words { back_image self.new ≡ copied p (back_image self.old) }
        ensures held { back_held self.new ≡ back_held self.old }
    {
        self.lasting[p] = self.working[p];
    }
}

impl<'w, 'l> Memory for WriteBack<'w, 'l> {
    ghost image = { back_image };

    ghost exact = { λ call i j. j ≡ back_does call i };

    ghost held = { back_held };

    fn size(&self) -> usize {
        self.size
    }

    fn load(&mut self, p: usize) -> Result<u32, MemoryFault> {
        check_place(p, self.size)?;
        Ok(self.working[p])
    }

    fn store(&mut self, p: usize, v: u32) -> Result<(), MemoryFault> {
        check_place(p, self.size)?;
        self.write(p, v);
        Ok(())
    }

    fn flush(&mut self, p: usize) -> Result<(), MemoryFault> {
        check_place(p, self.size)?;
        self.keep(p);
        Ok(())
    }

    fn evict(&mut self, p: usize) -> Result<(), MemoryFault> {
        self.flush(p)
    }

    fn cut(&mut self) {
        let size = self.size;
        // A `&mut`, though it is only read: lent as `&` out of the field, its words would not be known afterwards.
        let lasting = &mut self.lasting[..size];
        self.working[..size].copy_from_slice(lasting);
    }

    ghost level = { back_level };
}

impl<'w, 'l> Tables for WriteBack<'w, 'l> {
    fn tables(&self) -> (&[u32], &[u32]) {
        let size = self.size;
        (&self.working[..size], &self.lasting[..size])
    }
}

impl<'w, 'l> Exact for WriteBack<'w, 'l> {
    ghost does = { back_does };

    ghost exactly = { λ _ _ _ done. done };

    ghost saves = { back_saves };
}
