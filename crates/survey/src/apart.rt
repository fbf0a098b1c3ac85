// Rule 5, where rule 2 holds: one pass over the slots chains the live handles of each block, and a number met twice on one chain breaks the rule.
ghost use Rattle.std.specs.Prelude.{◌≡◌, ◌+◌, ◌<◌};
ghost use Rattle.survey.specs.Rules.{Rule2};
ghost use Rattle.survey.specs.Broken.{rule5};
ghost use Rattle.survey.specs.Chains.{Chained, ChainedTo};
ghost use Rattle.survey.specs.Apart.{Told, Unmet};

use pool::Pool;
use rulebook::{MOST_BLOCKS, MOST_CELLS, MOST_HANDLES};

// No slot and no block; arrays start with it. An Option in them would double them.
const NONE: u32 = 256;

// A mark for each number that a handle may have: 0 to N.
const NUMBERS: usize = MOST_CELLS as usize + 1;

// The handle in the slot, if it is live, comes first on the chain of its block.
fn chain_slot(pool: Pool<'_>, slot: u32, first: &mut [u32], next: &mut [u32])
    requires { Rule2 pool.sizes pool.words.now × (slot < pool.sizes.h) × ChainedTo pool.sizes pool.words.now slot first.old next.old }
    ensures { ChainedTo pool.entry.sizes pool.entry.words.now (slot + 1) first.new next.new }
{
    let handle = pool.raw_slot(slot);
    if handle.is_live() {
        let block = handle.block as usize;
        next[slot as usize] = first[block];
        first[block] = slot;
    }
}

fn chain_slots(pool: Pool<'_>, first: &mut [u32], next: &mut [u32])
    requires { Rule2 pool.sizes pool.words.now × ChainedTo pool.sizes pool.words.now 0 first.old next.old }
    ensures { Chained pool.entry.sizes pool.entry.words.now first.new next.new }
{
    for slot in 0..pool.sizes.h {
        chain_slot(pool, slot, first, next);
    }
}

// No number stands twice on the chain of the block. What is met is marked with the block, so that no mark is cleared for the next one.
fn apart_on(pool: Pool<'_>, first: &[u32], next: &[u32], block: u32, seen: &mut [u32]) -> bool
    requires { Chained pool.sizes pool.words.now first.now next.now × (block < pool.sizes.b) × Unmet block seen.old }
    ensures { Told pool.entry.sizes pool.entry.words.now block seen.new result }
{
    let mut slot = first[block as usize];
    // By hand: down a list there is no range.
    while slot != NONE {
        let number = pool.raw_slot(slot).number as usize;
        if seen[number] == block {
            return false;
        }
        seen[number] = block;
        slot = next[slot as usize];
    }
    true
}

fn blocks_apart(pool: Pool<'_>, first: &[u32], next: &[u32], seen: &mut [u32]) -> bool
    requires { Chained pool.sizes pool.words.now first.now next.now × Unmet 0 seen.old }
    ensures { result ≡ rule5 pool.entry.sizes pool.entry.words.now }
{
    for block in 0..pool.sizes.b {
        if !apart_on(pool, first, next, block, seen) {
            return false;
        }
    }
    true
}

/// Rule 5, where rule 2 holds.
pub fn all_apart(pool: Pool<'_>) -> bool
    requires { Rule2 pool.sizes pool.words.now }
    ensures { result ≡ rule5 pool.entry.sizes pool.entry.words.now }
{
    // A list of slots threaded through two arrays: no heap, one pass over the slots (docs/DECISIONS.md, What the check costs).
    let mut first = [NONE; MOST_BLOCKS as usize];
    let mut next = [NONE; MOST_HANDLES as usize];
    chain_slots(pool, &mut first, &mut next);
    let mut seen = [NONE; NUMBERS];
    blocks_apart(pool, &first, &next, &mut seen)
}
