// The entries of a cell's log against a number.
ghost use Rattle.std.specs.Prelude.{◌≡◌, ◌<◌, ◌≤◌, length};
ghost use Rattle.theorems.specs.Terms.{all_to};
ghost use Rattle.audit.specs.Gets.{Log, log_in, older_in};

use pool::Pool;
use survey::all_below;

// The entry is older than the number.
#[tactic(auto, unfolding(crate::specs::Gets::older_in), using(crate::proofs::Seeking::gets))]
fn is_older(pool: Pool<'_>, block: u32, cell: u32, number: u32, index: u32) -> bool
    requires log { Log pool.sizes pool.words.now block cell }
    requires there { index < length (log_in pool.sizes pool.words.now block cell) }
    ensures { result ≡ older_in pool.entry.sizes pool.entry.words.now block cell number index }
{
    pool.raw_stamp(block, cell, index) < number
}

// So many entries are.
pub fn all_older(pool: Pool<'_>, block: u32, cell: u32, number: u32, entries: u32) -> bool
    requires log { Log pool.sizes pool.words.now block cell }
    requires there { entries ≤ length (log_in pool.sizes pool.words.now block cell) }
    ensures { result ≡ all_to (older_in pool.entry.sizes pool.entry.words.now block cell number) entries }
{
    all_below(
        entries,
        move |index| is_older(pool, block, cell, number, index),
    )
}
