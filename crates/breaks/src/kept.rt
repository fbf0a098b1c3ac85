// A store of 2 cells, 4 handles and 2 tasks, with something in each of its parts.
use client::{Refused, Said, asked};
use winchclover::{
    winch_open, winch_release, winch_start_get, winch_start_new, winch_start_set, winch_step,
};

/// The words of a pool with room for two blocks.
pub const POOL_WORDS: usize = 208;

pub type Words = [u32; POOL_WORDS];

// The handle in which task 0 ends with the last of so many steps; 0, which names none, where it does not. After an earlier end a step is refused.
fn made(words: &mut Words, steps: u32) -> Result<u32, Refused> {
    let mut last = Said::Nothing;
    for _ in 0..steps {
        let answer = asked(|answer| winch_step(words, 0, answer))?;
        last = Said::from(answer);
    }
    match last {
        Said::Made { handle, .. } => Ok(handle),
        _ => Ok(0),
    }
}

// A new takes N + 1 steps.
fn new(words: &mut Words, value: u32) -> Result<u32, Refused> {
    asked(|answer| winch_start_new(words, 0, value, answer))?;
    made(words, 3)
}

// A set in place takes 4.
fn set(words: &mut Words, handle: u32, value: u32) -> Result<u32, Refused> {
    asked(|answer| winch_start_set(words, 0, handle, 0, value, answer))?;
    made(words, 4)
}

/// One log has two entries, two handles are live on the block, and a get has begun.
pub fn kept() -> Result<Words, Refused> {
    let mut words = [0; POOL_WORDS];
    asked(|answer| winch_open(&mut words, 2, 4, 2, answer))?;
    let first = new(&mut words, 7)?;
    let second = set(&mut words, first, 9)?;
    asked(|answer| winch_release(&mut words, first, answer))?;
    let third = set(&mut words, second, 4)?;
    asked(|answer| winch_start_get(&mut words, 1, third, 0, answer))?;
    Ok(words)
}
