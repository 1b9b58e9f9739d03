// A memory whose words last only once they are copied from the working to the lasting table.
ghost use Rattle.std.specs.Prelude.{◌≡◌};
ghost use Rattle.memories.specs.Tables.{shorter};

pub mod calls;
pub mod lent;

// Its size is the shorter length. The words of the longer table past the size are no part of it.
// Two tables and no table of pairs: they are the caller's, and a printer's lasting words lie by themselves.
#[derive(Drop)]
pub struct WriteBack<'w, 'l> {
    working: &'w mut [u32],
    lasting: &'l mut [u32],
    // The shorter length, kept so that no call has to find it anew.
    size: usize,
    ghost is_shorter: { size ≡ shorter working.now lasting.now },
}
