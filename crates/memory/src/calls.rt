// The calls that touch a memory's words, as values.

#[derive(Clone, Copy, PartialEq, Eq, Debug)]
pub enum Call {
    Load(usize),
    Store(usize, u32),
    Flush(usize),
    Evict(usize),
    Cut,
}
