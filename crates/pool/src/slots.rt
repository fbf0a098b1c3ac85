// Handle rows: where they lie, their words, what a call sees of them, and the ranges that the check tests.
// Words have the numbers of docs/LAYOUT.md. A row's length is a clause: the row is a part of the lent words, cut in the line that calls.
ghost use Rattle.std.specs.Prelude.{◌≡◌, ◌+◌, ◌<◌, ◌≤◌, length};
ghost use Rattle.rulebook.specs.Sizes.{most_handles, handle_row};
ghost use Rattle.layout.specs.Places.{slot_start};
ghost use Rattle.layout.specs.Rows.{slot_words, slot_read, slot_seen_of, slot_fits};

use super::view::{Pool, PoolMut};
use rulebook::{Damaged, HANDLE_ROW, HEADER_WORDS, LAST_SERIAL, Sizes, Slot, Status};
use std::ops::Range;

// Where the row lies.
fn row(slot: u32) -> Range<usize>
    requires { slot < most_handles }
    ensures { (result.start ≡ slot_start slot) × (result.end ≡ slot_start slot + handle_row) × (result.end ≤ 1040) }
{
    let start = (HEADER_WORDS + HANDLE_ROW * slot) as usize;
    start..start + HANDLE_ROW as usize
}

#[tactic(auto, unfolding(layout::specs::Rows::slot_words), using(layout::specs::Ways::rowing))]
fn write(row: &mut [u32], slot: Slot)
    requires { length row.old ≡ handle_row }
    ensures { row.new ≡ slot_words slot }
{
    row[0] = slot.serial;
    row[1] = u32::from(slot.status);
    row[2] = slot.block;
    row[3] = slot.number;
}

// The slot of a row that has a status' code.
#[tactic(auto, unfolding(layout::specs::Rows::slot_seen_of, layout::specs::Rows::slot_read, rulebook::specs::Codes::status_coded))]
fn read(row: &[u32]) -> Result<Slot, Damaged>
    requires { length row.now ≡ handle_row }
    ensures { result ≡ slot_seen_of row.now }
{
    Ok(Slot {
        serial: row[0],
        status: Status::try_from(row[1])?,
        block: row[2],
        number: row[3],
    })
}

// The slot of a row, free where it has no status' code.
#[tactic(auto, unfolding(layout::specs::Rows::slot_read, rulebook::specs::Codes::status_coded, rulebook::specs::Codes::status_from))]
fn read_raw(row: &[u32]) -> Slot
    requires { length row.now ≡ handle_row }
    ensures { result ≡ slot_read row.now }
{
    Slot {
        serial: row[0],
        status: Status::try_from(row[1]).unwrap_or(Status::Free),
        block: row[2],
        number: row[3],
    }
}

// Each number is in its range.
#[tactic(auto, unfolding(layout::specs::Rows::slot_fits, rulebook::specs::Sizes::last_serial))]
fn fits(slot: Slot, sizes: Sizes) -> bool
    ensures { result ≡ slot_fits sizes slot }
{
    slot.block < sizes.b && slot.number <= sizes.n && slot.serial <= LAST_SERIAL
}

impl Pool<'_> {
    ghost use Rattle.std.specs.Prelude.{◌≡◌, ◌<◌, OnOk};
    ghost use Rattle.layout.specs.Places.{slot_part};
    ghost use Rattle.layout.specs.Rows.{slot_read};
    ghost use Rattle.layout.specs.Pool.{slot_in, slot_seen};

    /// The slot as a call sees it.
    #[tactic(auto, unfolding(layout::specs::Pool::slot_seen, layout::specs::Places::slot_part, layout::specs::Parts::part, layout::specs::Parts::splice), using(layout::specs::Lends::lends))]
    pub fn slot(self, slot: u32) -> Result<Slot, Damaged>
        ensures seen { result ≡ slot_seen self.entry.words.now self.entry.sizes slot }
        ensures there { OnOk result (slot < self.entry.sizes.h) }
    {
        if self.sizes.h <= slot {
            return Err(Damaged);
        }
        read(&self.words[row(slot)])
    }

    /// The slot as it lies, whatever its ranges.
    #[tactic(auto, unfolding(layout::specs::Places::slot_part, layout::specs::Parts::part, layout::specs::Parts::splice), using(layout::specs::Lends::lends))]
    pub fn raw_slot(self, slot: u32) -> Slot
        requires { slot < self.sizes.h }
        ensures { result ≡ slot_read (slot_part self.entry.words.now slot) }
    {
        read_raw(&self.words[row(slot)])
    }

    /// The slot where each of its numbers is in its range.
    #[tactic(auto, unfolding(layout::specs::Pool::slot_in, layout::specs::Rows::slot_row_of, layout::specs::Rows::slot_seen_of, layout::specs::Places::slot_part, layout::specs::Parts::part, layout::specs::Parts::splice), using(layout::specs::Lends::lends))]
    pub fn ranged_slot(self, slot: u32) -> Result<Slot, Damaged>
        requires { slot < self.sizes.h }
        ensures { result ≡ slot_in self.entry.words.now self.entry.sizes slot }
    {
        let found = read(&self.words[row(slot)])?;
        if fits(found, self.sizes) {
            Ok(found)
        } else {
            Err(Damaged)
        }
    }
}

impl PoolMut<'_> {
    ghost use Rattle.std.specs.Prelude.{◌≡◌, ◌<◌};
    ghost use Rattle.layout.specs.Pool.{put_slot};
    ghost use Rattle.pool.specs.Loans.{IsSameLoan};

    /// Writes the slot's row.
    #[tactic(auto, using(layout::specs::Lends::lends), unfolding(layout::specs::Parts::part, layout::specs::Parts::splice))]
    pub fn put_slot(&mut self, slot: u32, value: Slot)
        requires { slot < self.old.sizes.h }
        ensures words { self.new.words.now ≡ put_slot self.old.words.now slot value }
        ensures same { IsSameLoan self.old self.new }
    {
        write(&mut self.words[row(slot)], value);
    }
}
