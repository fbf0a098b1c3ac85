// One block's words, a lent part of the pool: V, the cells, and a log for each cell in chunks that double.
// No public function asks anything of what the words say: a number outside the block or its layout is Damaged, and changes nothing. Those of raw ask for a block and a cell of it.
// A slice and its number of cells stand in no struct: an answer is promised for any slice and any number, so it would have no invariant.
#![tactic(auto)]

mod change;
mod raw;
mod walk;

ghost use Rattle.std.specs.Prelude.{◌≡◌, ◌+◌, ◌≤◌, ◌<◌, is_ok, OnOk, IfOk};
ghost use Rattle.rulebook.specs.Sizes.{most_cells, block_words, directory_width};
ghost use Rattle.block.specs.Layout.{cell_ix, length_ix, base_ix, entry_ix, arena, most_places, chunk_of, offset_of, place_of, space_of, is_block, has_cell, Sized, Reach, Lies};
ghost use Rattle.block.specs.Rooms.{Told};
ghost use Rattle.block.specs.Words.{version_in, cell_in, length_in, entry_in};

pub use change::{append, exchange, fill, take, write};
pub use raw::{raw_bump, raw_length, raw_stamp, raw_version};
use rulebook::{Damaged, Entry, MOST_CELLS, block_words};
pub use walk::laid;

// The block's words: V, the bump, and words not used up to HEAD; a cell, a length and WIDTH words of the directory for each cell; the arena.
const VERSION: usize = 0;

const BUMP: usize = 1;

const HEAD: u32 = 16;

const WIDTH: u32 = 13;

// The most places of an arena.
const PLACES: usize = 8192;

// The slice is a block of so many cells.
#[tactic(auto, unfolding(crate::specs::Layout::is_block, rulebook::specs::Sizes::block_words))]
fn sized(block: &[u32], cells: u32) -> Result<(), Damaged>
    ensures test { is_ok result ≡ is_block cells block.now }
    ensures sized { OnOk result (Sized cells block.now) }
{
    if cells < 1 || MOST_CELLS < cells || block.len() != block_words(cells) as usize {
        return Err(Damaged);
    }
    Ok(())
}

// It is one, with this cell.
#[tactic(auto, unfolding(crate::specs::Layout::has_cell))]
fn has_cell(block: &[u32], cells: u32, cell: u32) -> Result<(), Damaged>
    ensures test { is_ok result ≡ has_cell cells block.now cell }
    ensures sized { OnOk result (Sized cells block.now × (cell < cells)) }
{
    sized(block, cells)?;
    if cells <= cell {
        return Err(Damaged);
    }
    Ok(())
}

// ---- where a word lies

// The cell.
#[tactic(auto, unfolding(crate::specs::Layout::cell_ix, crate::specs::Layout::arena, rulebook::specs::Sizes::block_words, rulebook::specs::Sizes::directory_width))]
fn cell_at(cells: u32, cell: u32) -> usize
    requires { (cells ≤ most_cells) × (cell < cells) }
    ensures { Lies cells (cell_ix cells cell) result }
{
    (HEAD + cell) as usize
}

// The length of its log.
#[tactic(auto, unfolding(crate::specs::Layout::length_ix, crate::specs::Layout::arena, rulebook::specs::Sizes::block_words, rulebook::specs::Sizes::directory_width))]
fn length_at(cells: u32, cell: u32) -> usize
    requires { (cells ≤ most_cells) × (cell < cells) }
    ensures { Lies cells (length_ix cells cell) result }
{
    (HEAD + cells + cell) as usize
}

// The place at which a chunk of its log begins.
#[tactic(auto, unfolding(crate::specs::Layout::base_ix, crate::specs::Layout::arena, rulebook::specs::Sizes::block_words, rulebook::specs::Sizes::directory_width))]
fn base_at(cells: u32, cell: u32, chunk: u32) -> usize
    requires { (cells ≤ most_cells) × (cell < cells) × (chunk < directory_width cells) }
    ensures { Lies cells (base_ix cells cell chunk) result }
{
    (HEAD + 2 * cells + WIDTH * cell + chunk) as usize
}

// The version at a place of the arena; the old value is the next word.
#[tactic(auto, unfolding(crate::specs::Layout::entry_ix, crate::specs::Layout::arena, rulebook::specs::Sizes::block_words, rulebook::specs::Sizes::directory_width))]
fn entry_at(cells: u32, place: usize) -> usize
    requires { (cells ≤ most_cells) × (place < arena cells) }
    ensures { Lies cells (entry_ix cells place) result × (result + 1 < block_words cells) }
{
    (HEAD + 2 * cells + WIDTH * cells) as usize + 2 * place
}

// How many entries the arena holds.
#[tactic(auto, unfolding(crate::specs::Layout::arena))]
fn places(cells: u32) -> usize
    requires { cells ≤ most_cells }
    ensures { (result ≡ arena cells) × (result ≤ most_places) }
{
    2 * cells as usize
}

// ---- a log's chunks

// The chunk of an entry: floor(log2 (index + 1)).
#[tactic(auto, unfolding(crate::specs::Layout::chunk_of))]
fn chunk(index: u32) -> u32
    requires { index < 4294967295 }
    ensures { (result ≡ chunk_of index) × (result < 32) }
{
    (index + 1).ilog2()
}

// Its place in the chunk.
#[tactic(auto, using(crate::specs::Chunks::shifts))]
fn offset(index: u32) -> u32
    requires { index < 4294967295 }
    ensures { result ≡ offset_of index }
{
    index + 1 - (1 << chunk(index))
}

// The places of a log of so many entries.
#[tactic(auto, using(crate::specs::Chunks::shifts))]
fn space(entries: u32) -> u32
    requires { entries ≤ most_cells }
    ensures { (result ≡ space_of entries) × (result < most_places) }
{
    (1 << (32 - entries.leading_zeros())) - 1
}

// The arena's place of an entry of the cell's log.
fn place(block: &[u32], cells: u32, cell: u32, index: u32) -> usize
    requires { Reach cells block.now cell index }
    ensures { result ≡ place_of cells block.now cell index }
{
    let base = block[base_at(cells, cell, chunk(index))];
    base as usize + offset(index) as usize
}

// ---- reading

/// The block's version V.
#[tactic(auto, unfolding(crate::specs::Words::version_in, rulebook::specs::Sizes::block_words))]
pub fn version(block: &[u32], cells: u32) -> Result<u32, Damaged>
    ensures { result ≡ version_in cells block.now }
{
    sized(block, cells)?;
    Ok(block[VERSION])
}

/// The cell.
#[tactic(auto, unfolding(crate::specs::Words::cell_in, rulebook::specs::Sizes::block_words))]
pub fn cell(block: &[u32], cells: u32, cell: u32) -> Result<u32, Damaged>
    ensures { result ≡ cell_in cells block.now cell }
{
    has_cell(block, cells, cell)?;
    Ok(block[cell_at(cells, cell)])
}

/// How many entries the cell's log has: at most as many as the block has cells.
#[tactic(auto, unfolding(crate::specs::Words::length_in, rulebook::specs::Sizes::block_words))]
pub fn log_length(block: &[u32], cells: u32, cell: u32) -> Result<u32, Damaged>
    ensures answer { result ≡ length_in cells block.now cell }
    ensures told { IfOk result (λ length. Told cells block.now cell length) }
{
    has_cell(block, cells, cell)?;
    let length = block[length_at(cells, cell)];
    if cells < length {
        return Err(Damaged);
    }
    Ok(length)
}

/// An entry of the cell's log.
#[tactic(auto, using(crate::specs::Rooms::entries), unfolding(crate::specs::Words::entry_in, crate::specs::Words::entry_under))]
pub fn entry(block: &[u32], cells: u32, cell: u32, index: u32) -> Result<Entry, Damaged>
    ensures { result ≡ entry_in cells block.now cell index }
{
    if log_length(block, cells, cell)? <= index {
        return Err(Damaged);
    }
    let place = place(block, cells, cell, index);
    if places(cells) <= place {
        return Err(Damaged);
    }
    let at = entry_at(cells, place);
    Ok(Entry {
        version: block[at],
        old: block[at + 1],
    })
}
