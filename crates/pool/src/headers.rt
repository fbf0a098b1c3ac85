// The pool's first words, and the sizes that they give.
// Words have the numbers of docs/LAYOUT.md. That they are there is a clause of fits: header_of tests the length before all else.
ghost use Rattle.std.specs.Prelude.{◌≡◌, ◌≤◌, ◌+◌, IfSome, get_or, length};
ghost use Rattle.rulebook.specs.Sizes.{block_words, control_words, most_cells, most_handles, most_tasks, within};
ghost use Rattle.layout.specs.Header.{limited, sizes_in, header_of};
ghost use Rattle.layout.specs.Places.{Spans};

use super::{FORM, MARK};
use rulebook::{
    HEADER_WORDS, MOST_BLOCKS, MOST_CELLS, MOST_HANDLES, MOST_TASKS, Sizes, block_words,
    control_words,
};

const MOST_WORDS: usize = 4294967295;

// From 1 up to the most.
#[tactic(auto, unfolding(rulebook::specs::Sizes::within))]
fn within(number: u32, most: u32) -> bool
    ensures { result ≡ within 1 number most }
{
    1 <= number && number <= most
}

// N, H and T within their limits.
#[tactic(auto, unfolding(layout::specs::Header::limited))]
fn limits(cells: u32, handles: u32, tasks: u32) -> bool
    ensures { result ≡ limited cells handles tasks }
{
    within(cells, MOST_CELLS) && within(handles, MOST_HANDLES) && within(tasks, MOST_TASKS)
}

// The same of words 1 to 3: each is read where it is tested, so that each test is a branch of its own.
#[tactic(auto, unfolding(layout::specs::Header::limited))]
fn fits(words: &[u32]) -> bool
    requires { 4 ≤ length words.now }
    ensures { result ≡ limited (get_or words.now 1 0) (get_or words.now 2 0) (get_or words.now 3 0) }
{
    within(words[1], MOST_CELLS) && within(words[2], MOST_HANDLES) && within(words[3], MOST_TASKS)
}

// Where the first block ends: one number for the header's test and for every block's place.
pub(crate) fn first_end(cells: u32, handles: u32, tasks: u32) -> usize
    requires { (cells ≤ most_cells) × ((handles ≤ most_handles) × (tasks ≤ most_tasks)) }
    ensures { (result ≡ control_words handles tasks + block_words cells) × (result ≤ 83488) }
{
    (control_words(handles, tasks) + block_words(cells)) as usize
}

/// The sizes of a store in a pool of so many words, where it may be opened.
#[tactic(auto, using(layout::specs::Ways::sizing))]
pub fn sizes(words: usize, cells: u32, handles: u32, tasks: u32) -> Option<Sizes>
    ensures { result ≡ sizes_in cells handles tasks words }
{
    if !limits(cells, handles, tasks) || MOST_WORDS < words {
        return None;
    }
    let control = control_words(handles, tasks) as usize;
    let block = block_words(cells) as usize;
    if words < first_end(cells, handles, tasks) {
        return None;
    }
    let room = (words - control) / block;
    let blocks = room.min(MOST_BLOCKS as usize) as u32;
    Some(Sizes {
        n: cells,
        h: handles,
        t: tasks,
        b: blocks,
    })
}

/// What words 0 to 5 say, where they describe the pool.
#[tactic(auto, using(crate::proofs::Limits::header_unlimited, layout::specs::Ways::headers))]
pub fn header_of(words: &[u32]) -> Option<Sizes>
    ensures sizes { result ≡ header_of words.now }
    ensures spans { IfSome result (λ sizes. Spans sizes words.now) }
{
    let length = words.len();
    if length < HEADER_WORDS as usize
        || words[0] != MARK
        || words[5] != FORM
        || words[4] as usize != length
        || !fits(words)
    {
        return None;
    }
    sizes(length, words[1], words[2], words[3])
}
