// A memory whose one table is both the working and the lasting words.
pub mod calls;

#[derive(Drop)]
pub struct WriteThrough<'a> {
    words: &'a mut [u32],
}
