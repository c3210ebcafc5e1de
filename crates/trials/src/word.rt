// Sequences as lists of positions, and a beginning as a shorter list.
//
// The order among lists is the order among sequences and beginnings: the first entry that differs decides, and a
// beginning stands before those that go on from it.
use arrayvec::ArrayVec;
use std::alloc::{AllocError, Global};
use std::{iter, mem};

// The positions of at most six entries.
pub(crate) type Word = ArrayVec<u8, 6>;

// Every list of at least one position and at most so many, in order: each first position alone, and then before each
// list that has an entry less. Loops: a `try_for_each` in a `try_for_each` is no plainer.
pub(crate) fn words(heap: Global, entries: usize) -> Result<Vec<Word>, AllocError> {
    let mut all = Vec::new(heap);
    for _ in 0..entries {
        let shorter = mem::replace(&mut all, Vec::new(heap));
        for first in 0..5u8 {
            all.push(begun(heap, first, &[])?)?;
            for rest in &shorter {
                all.push(begun(heap, first, rest)?)?;
            }
        }
    }
    Ok(all)
}

fn begun(heap: Global, first: u8, rest: &[u8]) -> Result<Word, AllocError> {
    iter::once(first).chain(rest.iter().copied()).collect(heap)
}
