// What changes a block: the exchange of V, an entry more, a cell's new value, and taking and filling a block.
ghost use Rattle.std.specs.Prelude.{◌≡◌, ◌<◌, is_ok};
ghost use Rattle.block.specs.Layout.{Sized, Reach};
ghost use Rattle.block.specs.Words.{exchange_in, write_in, take_in, fill_in, fresh_room, held_room, room_in, append_in};

use super::{
    BUMP, VERSION, base_at, cell_at, chunk, entry_at, has_cell, length_at, log_length, offset,
    place, places, sized,
};
use rulebook::{Damaged, Entry};

// What an append writes: the base of the entry's chunk, the bump, the entry's place in the arena, and the log's length.
// Clone and Copy alone: nothing compares or prints one, and each derived method is one more to prove.
#[derive(Clone, Copy)]
pub struct Spot {
    pub chunk: u32,
    pub base: u32,
    pub bump: u32,
    pub place: usize,
    pub length: u32,
}

/// If V is the number, which is at most as large as there are cells, V becomes one more. It answers whether it did.
#[tactic(auto, unfolding(crate::specs::Words::exchange_in, rulebook::specs::Sizes::block_words))]
pub fn exchange(block: &mut [u32], cells: u32, number: u32) -> Result<bool, Damaged>
    ensures { (block.new, result) ≡ exchange_in cells block.old number }
{
    sized(block, cells)?;
    if block[VERSION] != number {
        return Ok(false);
    }
    if cells < number {
        return Err(Damaged);
    }
    block[VERSION] = number + 1;
    Ok(true)
}

/// Writes the cell.
#[tactic(auto, unfolding(crate::specs::Words::write_in))]
pub fn write(block: &mut [u32], cells: u32, cell: u32, value: u32) -> Result<(), Damaged>
    ensures { (block.new, is_ok result) ≡ write_in cells block.old cell value }
{
    has_cell(block, cells, cell)?;
    block[cell_at(cells, cell)] = value;
    Ok(())
}

/// A block that is taken has V = 0 and nothing in its arena.
#[tactic(auto, unfolding(crate::specs::Words::take_in, rulebook::specs::Sizes::block_words))]
pub fn take(block: &mut [u32], cells: u32) -> Result<(), Damaged>
    ensures { (block.new, is_ok result) ≡ take_in cells block.old }
{
    sized(block, cells)?;
    block[VERSION] = 0;
    block[BUMP] = 0;
    Ok(())
}

/// Writes a cell of a block being filled, and empties its log.
#[tactic(auto, unfolding(crate::specs::Words::fill_in))]
pub fn fill(block: &mut [u32], cells: u32, cell: u32, value: u32) -> Result<(), Damaged>
    ensures { (block.new, is_ok result) ≡ fill_in cells block.old cell value }
{
    has_cell(block, cells, cell)?;
    block[cell_at(cells, cell)] = value;
    block[length_at(cells, cell)] = 0;
    Ok(())
}

// ---- appending

// A new chunk for the entry after so many, at the bump.
#[tactic(auto, using(crate::specs::Rooms::spots), unfolding(crate::specs::Words::fresh_room, rulebook::specs::Sizes::block_words))]
fn fresh_room(block: &[u32], cells: u32, entries: u32) -> Option<Spot>
    requires { Sized cells block.now × (entries < cells) }
    ensures { result ≡ fresh_room cells block.now entries }
{
    let bump = block[BUMP];
    let more = entries + 1;
    if places(cells) < bump as usize + more as usize {
        return None;
    }
    Some(Spot {
        chunk: chunk(entries),
        base: bump,
        bump: bump + more,
        place: bump as usize,
        length: more,
    })
}

// Its place in a chunk that the log has.
#[tactic(auto, using(crate::specs::Rooms::spots), unfolding(crate::specs::Words::held_room, rulebook::specs::Sizes::block_words))]
fn held_room(block: &[u32], cells: u32, cell: u32, entries: u32) -> Option<Spot>
    requires { Reach cells block.now cell entries }
    ensures { result ≡ held_room cells block.now cell entries }
{
    let place = place(block, cells, cell, entries);
    if places(cells) <= place {
        return None;
    }
    let chunk = chunk(entries);
    Some(Spot {
        chunk,
        base: block[base_at(cells, cell, chunk)],
        bump: block[BUMP],
        place,
        length: entries + 1,
    })
}

// Where the next entry of the cell's log goes.
#[tactic(auto, using(crate::specs::Rooms::rooms), unfolding(crate::specs::Words::room_in, crate::specs::Words::room_under))]
fn find_room(block: &[u32], cells: u32, cell: u32) -> Option<Spot>
    ensures { result ≡ room_in cells block.now cell }
{
    let entries = log_length(block, cells, cell).ok()?;
    if cells <= entries {
        return None;
    }
    if offset(entries) == 0 {
        fresh_room(block, cells, entries)
    } else {
        held_room(block, cells, cell, entries)
    }
}

/// Adds an entry to the cell's log. Damaged too where there is no room for it: a log with room is part of every sound block.
#[tactic(auto, using(crate::proofs::Plans::appends), unfolding(crate::specs::Words::append_in, crate::specs::Words::append_at, crate::specs::Words::stored))]
pub fn append(block: &mut [u32], cells: u32, cell: u32, entry: Entry) -> Result<(), Damaged>
    ensures { (block.new, is_ok result) ≡ append_in cells block.old cell entry.version entry.old }
{
    let spot = find_room(block, cells, cell).ok_or(Damaged)?;
    let at = entry_at(cells, spot.place);
    block[base_at(cells, cell, spot.chunk)] = spot.base;
    block[BUMP] = spot.bump;
    block[at] = entry.version;
    block[at + 1] = entry.old;
    block[length_at(cells, cell)] = spot.length;
    Ok(())
}
