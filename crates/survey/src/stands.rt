// The blocks on which live handles stand, marked in one pass over the slots: 0 where one stands.
ghost use Rattle.std.specs.Prelude.{◌≡◌, ◌+◌, ◌<◌, length};
ghost use Rattle.survey.specs.Stands.{Marked, MarkedTo, marked};

use pool::Pool;
use rulebook::MOST_BLOCKS;

fn mark_slot(pool: Pool<'_>, slot: u32, marks: &mut [u32])
    requires { (slot < pool.sizes.h) × MarkedTo pool.sizes pool.words.now slot marks.old }
    ensures { MarkedTo pool.entry.sizes pool.entry.words.now (slot + 1) marks.new }
{
    let handle = pool.raw_slot(slot);
    if handle.is_live() && handle.block < MOST_BLOCKS {
        marks[handle.block as usize] = 0;
    }
}

/// Marks each block on which a live handle stands.
pub fn mark_stood(pool: Pool<'_>, marks: &mut [u32])
    requires { MarkedTo pool.sizes pool.words.now 0 marks.old }
    ensures { Marked pool.entry.sizes pool.entry.words.now marks.new }
{
    for slot in 0..pool.sizes.h {
        mark_slot(pool, slot, marks);
    }
}

/// A live handle stands on the block.
pub fn stood_on(marks: &[u32], block: u32) -> bool
    requires { block < length marks.now }
    ensures { result ≡ marked marks.now block }
{
    marks[block as usize] == 0
}
