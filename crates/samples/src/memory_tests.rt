// Examples, and what callers can prove of their words.
ghost use Rattle.std.specs.Prelude.{◌≡◌, OnOk, fold, slice_set};
ghost use Rattle.memories.specs.Back.{back_after};
ghost use Rattle.memories.specs.Tables.{lent_by, rest_of, saved};
ghost use Rattle.samples.specs.Lent.{RestKept};

use memories::tables::{Exact, Tables};
use memories::write_back::WriteBack;
use memories::write_back::lent::perform_on_tables;
use memories::write_through::WriteThrough;
use memory::calls::Call;
use memory::memory::{Memory, perform};
use memory::refusals::MemoryFault;
use std::test::Fail;

// Every word after calls through the interface: word p lasts, and no other word changes. It holds the same tables.
fn save<M: Exact>(memory: &mut M, p: usize, v: u32) -> Result<(), MemoryFault>
    ensures words { OnOk result (M.image memory.new ≡ saved p v (M.image memory.old)) }
    ensures held { M.held memory.new ≡ M.held memory.old }
{
    perform(memory, Call::Store(p, v))?;
    perform(memory, Call::Flush(p))?;
    Ok(())
}

// A caller that lends its own tables for a while, makes these calls, and passes over those that are refused:
// all first words afterwards, and past the shorter length no word of either table changes.
// Parameters and clauses are as in `perform_on_tables`.
fn perform_all(working: &mut [u32], lasting: &mut [u32], calls: &[Call])
    ensures words { lent_by working.new lasting.new ≡ fold back_after (lent_by working.old lasting.old) calls.now }
    ensures working { RestKept working.old lasting.old working.new }
    ensures lasting { RestKept lasting.old working.old lasting.new }
{
    let mut memory = WriteBack::new(working, lasting);
    for call in calls {
        let _ = perform(&mut memory, *call);
    }
}

// The same with a loan for each call. Both stand, since each shows another way to lend.
fn perform_each(working: &mut [u32], lasting: &mut [u32], calls: &[Call])
    ensures words { lent_by working.new lasting.new ≡ fold back_after (lent_by working.old lasting.old) calls.now }
    ensures working { rest_of working.new lasting.new ≡ rest_of working.old lasting.old }
    ensures lasting { rest_of lasting.new working.new ≡ rest_of lasting.old working.old }
{
    for call in calls {
        let _ = perform_on_tables(working, lasting, *call);
    }
}

// The caller's own table after the loan: word p is v, and no other word changes.
fn keep_word(words: &mut [u32], p: usize, v: u32) -> Result<(), MemoryFault>
    ensures { OnOk result (words.new ≡ slice_set words.old p v) }
{
    let mut memory = WriteThrough::new(words);
    memory.store(p, v)?;
    memory.cut();
    Ok(())
}

#[test]
fn a_flushed_word_lasts(rt: HostRuntime) -> Result<(), Fail> {
    let mut working = [0; 4];
    let mut lasting = [0; 4];
    let mut memory = WriteBack::new(&mut working, &mut lasting);
    save(&mut memory, 3, 7)?;
    memory.store(3, 9)?;
    memory.store(1, 5)?;
    memory.evict(1)?;
    memory.cut();
    let (working, lasting) = memory.tables();
    assert_eq!(rt; working, [0, 5, 0, 7].as_slice());
    assert_eq!(rt; lasting, [0, 5, 0, 7].as_slice());
    Ok(())
}

#[test]
fn the_shorter_table_is_the_size(rt: HostRuntime) {
    let mut working = [1, 2, 3, 4, 5];
    let mut lasting = [6, 7, 8];
    {
        let mut memory = WriteBack::new(&mut working, &mut lasting);
        assert_eq!(rt; memory.size(), 3);
        assert_eq!(rt; memory.store(3, 9), Err(MemoryFault { place: 3 }));
        memory.cut();
    }
    assert_eq!(rt; working, [6, 7, 8, 4, 5]);
    perform_all(
        &mut working,
        &mut lasting,
        &[Call::Store(0, 1), Call::Store(4, 1), Call::Flush(0)],
    );
    assert_eq!(rt; working, [1, 7, 8, 4, 5]);
    assert_eq!(rt; lasting, [1, 7, 8]);
}

#[test]
fn a_stored_word_lasts_at_once(rt: HostRuntime) -> Result<(), Fail> {
    let mut words = [0; 2];
    let mut memory = WriteThrough::new(&mut words);
    memory.store(1, 7)?;
    memory.cut();
    save(&mut memory, 0, 3)?;
    assert_eq!(rt; memory.load(1)?, 7);
    assert_eq!(rt; memory.tables().1, [3, 7].as_slice());
    assert_eq!(rt; memory.flush(2), Err(MemoryFault { place: 2 }));
    Ok(())
}

#[test]
fn lent_tables_come_back(rt: HostRuntime) -> Result<(), Fail> {
    let mut working = [1, 2, 3];
    let mut lasting = [4, 5, 6, 7];
    assert_eq!(rt;
        perform_on_tables(&mut working, &mut lasting, Call::Load(1))?,
        Some(2)
    );
    perform_each(
        &mut working,
        &mut lasting,
        &[
            Call::Store(0, 9),
            Call::Flush(0),
            Call::Store(3, 9),
            Call::Cut,
        ],
    );
    assert_eq!(rt; working, [9, 5, 6]);
    assert_eq!(rt; lasting, [9, 5, 6, 7]);
    keep_word(&mut working, 2, 8)?;
    assert_eq!(rt; working, [9, 5, 8]);
    Ok(())
}
