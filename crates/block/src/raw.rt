// Words of a block as they stand, whatever they say: what the check reads. Asked of a slice that is a block of so many cells.
ghost use Rattle.std.specs.Prelude.{◌≡◌, ◌≤◌, ◌<◌};
ghost use Rattle.block.specs.Layout.{Sized, bump_of, length_of, version_of};
ghost use Rattle.block.specs.Raw.{stamp_in};

use super::{BUMP, VERSION, entry_at, length_at, place, places};

// A version that rule 3 allows no entry: V is at most N + 1.
// A number and no Option: the check compares it as a version, and would have to take an Option apart at each call.
const OUTSIDE: u32 = 4294967295;

/// V.
#[tactic(auto, unfolding(rulebook::specs::Sizes::block_words))]
pub fn raw_version(block: &[u32], cells: u32) -> u32
    requires { Sized cells block.now }
    ensures { result ≡ version_of block.now }
{
    block[VERSION]
}

/// The bump.
#[tactic(auto, unfolding(rulebook::specs::Sizes::block_words))]
pub fn raw_bump(block: &[u32], cells: u32) -> u32
    requires { Sized cells block.now }
    ensures { result ≡ bump_of block.now }
{
    block[BUMP]
}

/// The length of the cell's log.
pub fn raw_length(block: &[u32], cells: u32, cell: u32) -> u32
    requires { Sized cells block.now × (cell < cells) }
    ensures { result ≡ length_of cells block.now cell }
{
    block[length_at(cells, cell)]
}

/// The version of an entry of that log, wherever the log ends; OUTSIDE where its place is not in the arena.
#[tactic(auto, using(crate::specs::Raw::raws))]
pub fn raw_stamp(block: &[u32], cells: u32, cell: u32, index: u32) -> u32
    requires { Sized cells block.now × (cell < cells) × (index ≤ cells) }
    ensures { result ≡ stamp_in cells block.now cell index }
{
    let place = place(block, cells, cell, index);
    if places(cells) <= place {
        return OUTSIDE;
    }
    block[entry_at(cells, place)]
}
