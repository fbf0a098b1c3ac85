// Searches of the rows: each ends at the first row that decides, a damaged one too.
use super::rows::{count_rows, first_row};
use super::view::Pool;
use rulebook::{Damaged, LAST_SERIAL, MOST_BLOCKS};

impl Pool<'_> {
    ghost use Rattle.std.specs.Prelude.{◌≡◌, ◌<◌};
    ghost use Rattle.acts.specs.Plans.{stands_at, vacant_at, names_at, fills_at, free_at, stander_in, vacant_in, user_in, filler_in, holder_in, free_in};
    ghost use Rattle.acts.specs.Looks.{count_of, lives_at};
    ghost use Rattle.layout.specs.Pool.{sight};

    // ---- one row

    // A live handle in the slot stands on the block.
    #[tactic(auto, unfolding(acts::specs::Plans::stands_at, acts::specs::Plans::standing, layout::specs::Pool::sight))]
    fn stands(self, block: u32, slot: u32) -> Result<Option<u32>, Damaged>
        requires { slot < self.sizes.h }
        ensures { result ≡ stands_at (sight self.entry.words.now self.entry.sizes) block slot }
    {
        let found = self.slot(slot)?;
        if found.is_live() && found.block == block {
            return Ok(Some(slot));
        }
        Ok(None)
    }

    // The slot may be reserved.
    #[tactic(auto, unfolding(acts::specs::Plans::vacant_at, acts::specs::Plans::vacant, layout::specs::Pool::sight, rulebook::specs::Sizes::last_serial))]
    fn is_vacant(self, slot: u32) -> Result<Option<u32>, Damaged>
        requires { slot < self.sizes.h }
        ensures { result ≡ vacant_at (sight self.entry.words.now self.entry.sizes) slot }
    {
        let found = self.slot(slot)?;
        if found.is_free() && found.serial < LAST_SERIAL {
            return Ok(Some(slot));
        }
        Ok(None)
    }

    // A live handle is in the slot.
    #[tactic(auto, unfolding(acts::specs::Looks::lives_at, acts::specs::Looks::live_at, layout::specs::Pool::sight))]
    fn lives(self, slot: u32) -> Result<Option<u32>, Damaged>
        requires { slot < self.sizes.h }
        ensures { result ≡ lives_at (sight self.entry.words.now self.entry.sizes) slot }
    {
        if self.slot(slot)?.is_live() {
            return Ok(Some(slot));
        }
        Ok(None)
    }

    // The task names the slot.
    #[tactic(auto, unfolding(acts::specs::Plans::names_at, acts::specs::Plans::naming, layout::specs::Pool::sight))]
    fn names(self, slot: u32, task: u32) -> Result<Option<u32>, Damaged>
        requires { task < self.sizes.t }
        ensures { result ≡ names_at (sight self.entry.words.now self.entry.sizes) slot task }
    {
        let found = self.task(task)?;
        if found.stage.names_handle() && found.slot == slot {
            return Ok(Some(task));
        }
        Ok(None)
    }

    // The task fills the block.
    #[tactic(auto, unfolding(acts::specs::Plans::fills_at, acts::specs::Plans::filler, layout::specs::Pool::sight))]
    fn fills(self, block: u32, task: u32) -> Result<Option<u32>, Damaged>
        requires { task < self.sizes.t }
        ensures { result ≡ fills_at (sight self.entry.words.now self.entry.sizes) block task }
    {
        let found = self.task(task)?;
        if found.stage.fills_block() && found.target == block {
            return Ok(Some(task));
        }
        Ok(None)
    }

    // ---- all rows

    /// A live handle that stands on the block.
    #[tactic(auto, unfolding(acts::specs::Plans::stander_in, layout::specs::Pool::sight))]
    pub fn stander(self, block: u32) -> Result<Option<u32>, Damaged>
        ensures { result ≡ stander_in (sight self.entry.words.now self.entry.sizes) block }
    {
        first_row(self.sizes.h, move |slot| self.stands(block, slot))
    }

    /// The lowest slot to reserve.
    #[tactic(auto, unfolding(acts::specs::Plans::vacant_in, layout::specs::Pool::sight))]
    pub fn vacancy(self) -> Result<Option<u32>, Damaged>
        ensures { result ≡ vacant_in (sight self.entry.words.now self.entry.sizes) }
    {
        first_row(self.sizes.h, move |slot| self.is_vacant(slot))
    }

    /// A task that names the slot.
    #[tactic(auto, unfolding(acts::specs::Plans::user_in, layout::specs::Pool::sight))]
    pub fn user(self, slot: u32) -> Result<Option<u32>, Damaged>
        ensures { result ≡ user_in (sight self.entry.words.now self.entry.sizes) slot }
    {
        first_row(self.sizes.t, move |task| self.names(slot, task))
    }

    // A task that fills the block.
    #[tactic(auto, unfolding(acts::specs::Plans::filler_in, layout::specs::Pool::sight))]
    fn filler(self, block: u32) -> Result<Option<u32>, Damaged>
        ensures { result ≡ filler_in (sight self.entry.words.now self.entry.sizes) block }
    {
        first_row(self.sizes.t, move |task| self.fills(block, task))
    }

    // What holds the block: a live handle that stands on it, or a task that fills it.
    #[tactic(auto, unfolding(acts::specs::Plans::holder_in, acts::specs::Plans::or_else))]
    fn holder(self, block: u32) -> Result<Option<u32>, Damaged>
        ensures { result ≡ holder_in (sight self.entry.words.now self.entry.sizes) block }
    {
        match self.stander(block)? {
            Some(slot) => Ok(Some(slot)),
            None => self.filler(block),
        }
    }

    /// The lowest free block. It is asked of each block whether it is there: a division for B would cost every step.
    #[tactic(auto, unfolding(acts::specs::Plans::free_in, acts::specs::Plans::free_at, acts::specs::Plans::unheld, layout::specs::Pool::sight), using(acts::proofs::Searches::first_of_zero, acts::proofs::Searches::first_of_none, acts::proofs::Searches::first_of_stops))]
    pub fn free_block(self) -> Result<Option<u32>, Damaged>
        ensures { result ≡ free_in (sight self.entry.words.now self.entry.sizes) }
    {
        for block in 0..MOST_BLOCKS {
            if !self.has_block(block) {
                return Ok(None);
            }
            if self.holder(block)?.is_none() {
                return Ok(Some(block));
            }
        }
        Ok(None)
    }

    // ---- counts

    /// How many handles are live.
    pub fn live_handles(self) -> Result<u32, Damaged>
        ensures { result ≡ count_of (lives_at (sight self.entry.words.now self.entry.sizes)) self.entry.sizes.h }
    {
        count_rows(self.sizes.h, move |slot| self.lives(slot))
    }

    /// On how many blocks live handles stand.
    pub fn stood_blocks(self) -> Result<u32, Damaged>
        ensures { result ≡ count_of (stander_in (sight self.entry.words.now self.entry.sizes)) self.entry.sizes.b }
    {
        count_rows(self.sizes.b, move |block| self.stander(block))
    }
}
