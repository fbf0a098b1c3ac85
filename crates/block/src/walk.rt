// The walk that decides whether the logs of a block are sound: it marks every place that they have.
ghost use Rattle.block.specs.Sound.{Laid};
ghost use Rattle.block.specs.Walk.{Decides, RowIn, RowOut};

use super::{BUMP, PLACES, length_at, place, places, sized, space};

// Marks the places of the cell's log: how many they are, where all are inside and none was marked before.
#[tactic(auto, using(crate::specs::Rows::row_ways))]
fn mark_row(block: &[u32], cells: u32, limit: usize, cell: u32, marks: &mut [u32]) -> Option<u32>
    requires { RowIn cells block.now limit cell marks.old }
    ensures { RowOut result cells block.now cell marks.new }
{
    let length = block[length_at(cells, cell)];
    if cells < length {
        return None;
    }
    let all = space(length);
    for index in 0..all {
        let place = place(block, cells, cell, index);
        if limit <= place || marks[place] == 0 {
            return None;
        }
        marks[place] = 0;
    }
    Some(all)
}

/// Whether the slice is a block of so many cells whose logs are sound.
#[tactic(auto, using(crate::specs::Rows::rows_ways), unfolding(rulebook::specs::Sizes::block_words))]
pub fn laid(block: &[u32], cells: u32) -> bool
    ensures { Decides result (Laid cells block.now) }
{
    let Ok(()) = sized(block, cells) else {
        return false;
    };
    let bump = block[BUMP] as usize;
    if places(cells) < bump {
        return false;
    }
    // A mark is 0 once its place is taken.
    let mut marks = [1u32; PLACES];
    let mut taken: u32 = 0;
    for cell in 0..cells {
        let Some(row) = mark_row(block, cells, bump, cell, &mut marks) else {
            return false;
        };
        taken += row;
    }
    taken as usize == bump
}
