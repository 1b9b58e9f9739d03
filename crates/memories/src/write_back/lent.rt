// A write-back memory for the length of one call, on tables that the caller has back afterwards.
ghost use Rattle.std.specs.Prelude.{◌≡◌};
ghost use Rattle.memories.specs.Back.{back_after};
ghost use Rattle.memories.specs.Tables.{lent_by, rest_of};
ghost use Rattle.memory.specs.Calls.{answer_of};

use crate::write_back::WriteBack;
use memory::calls::Call;
use memory::memory::perform;
use memory::refusals::MemoryFault;

// Makes one call on the memory that stands on these tables.
// The words of the longer table past the size never change.
// The tables are two parameters, as the caller's own variables are two: a struct of both would be `WriteBack`.
// What becomes of them is three clauses, each with its name, and no record of the three.
pub fn perform_on_tables(
    working: &mut [u32],
    lasting: &mut [u32],
    call: Call,
) -> Result<Option<u32>, MemoryFault>
    ensures answer { result ≡ answer_of call (lent_by working.old lasting.old) }
    ensures words { lent_by working.new lasting.new ≡ back_after (lent_by working.old lasting.old) call }
    ensures working { rest_of working.new lasting.new ≡ rest_of working.old lasting.old }
    ensures lasting { rest_of lasting.new working.new ≡ rest_of lasting.old working.old }
{
    let mut memory = WriteBack::new(working, lasting);
    perform(&mut memory, call)
}
