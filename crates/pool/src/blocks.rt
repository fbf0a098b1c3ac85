// Blocks: a block's words are lent on as a part of the pool, and what reads or writes them sees no others.
use super::headers::first_end;
use super::view::{Pool, PoolMut};
use rulebook::{Damaged, Entry, MOST_BLOCKS, Sizes, block_words};
use std::ops::Range;

impl Pool<'_> {
    ghost use Rattle.std.specs.Prelude.{◌≡◌, ◌≤◌, ◌<◌, length, is_ok, IfOk, ltb};
    ghost use Rattle.layout.specs.Places.{Place, Small};
    ghost use Rattle.layout.specs.Pool.{cell_seen, entry_seen, length_seen, version_seen};

    // Where a block lies, of any that a store may have.
    #[tactic(auto, using(layout::specs::Lends::extents))]
    fn place(self, block: u32) -> Range<usize>
        requires { Small self.sizes block }
        ensures { Place self.entry.sizes block result.start result.end }
    {
        let Sizes { n, h, t, .. } = self.sizes;
        let words = block_words(n) as usize;
        let end = first_end(n, h, t) + words * block as usize;
        end - words..end
    }

    // The block's part of the words. No division: B itself is not needed to tell whether there is such a block.
    #[tactic(auto, using(layout::specs::Lends::nears), unfolding(layout::specs::Parts::part, layout::specs::Parts::splice))]
    pub(crate) fn part(self, block: u32) -> Result<Range<usize>, Damaged>
        ensures there { is_ok result ≡ ltb block self.entry.sizes.b }
        ensures place { IfOk result (λ part. Place self.entry.sizes block part.start part.end × (block < self.entry.sizes.b)) }
    {
        if MOST_BLOCKS <= block {
            return Err(Damaged);
        }
        let part = self.place(block);
        if self.words.len() < part.end {
            return Err(Damaged);
        }
        Ok(part)
    }

    // The part of a block that is there.
    #[tactic(auto, using(layout::specs::Lends::lends), unfolding(layout::specs::Parts::part, layout::specs::Parts::splice))]
    pub(crate) fn part_of(self, block: u32) -> Range<usize>
        requires { block < self.sizes.b }
        ensures { Place self.entry.sizes block result.start result.end }
    {
        self.place(block)
    }

    /// Whether there is such a block.
    pub fn has_block(self, block: u32) -> bool
        ensures { result ≡ ltb block self.entry.sizes.b }
    {
        self.part(block).is_ok()
    }

    /// V of the block.
    #[tactic(auto, unfolding(layout::specs::Pool::version_seen, layout::specs::Parts::part, layout::specs::Parts::splice), using(layout::specs::Lends::looks))]
    pub fn version(self, block: u32) -> Result<u32, Damaged>
        ensures { result ≡ version_seen self.entry.words.now self.entry.sizes block }
    {
        let part = self.part(block)?;
        block::version(&self.words[part], self.sizes.n)
    }

    /// Its cell.
    #[tactic(auto, unfolding(layout::specs::Pool::cell_seen, layout::specs::Parts::part, layout::specs::Parts::splice), using(layout::specs::Lends::looks))]
    pub fn cell(self, block: u32, cell: u32) -> Result<u32, Damaged>
        ensures { result ≡ cell_seen self.entry.words.now self.entry.sizes block cell }
    {
        let part = self.part(block)?;
        block::cell(&self.words[part], self.sizes.n, cell)
    }

    /// How many entries the log of its cell has.
    #[tactic(auto, unfolding(layout::specs::Pool::length_seen, layout::specs::Parts::part, layout::specs::Parts::splice), using(layout::specs::Lends::looks))]
    pub fn log_length(self, block: u32, cell: u32) -> Result<u32, Damaged>
        ensures { result ≡ length_seen self.entry.words.now self.entry.sizes block cell }
    {
        let part = self.part(block)?;
        block::log_length(&self.words[part], self.sizes.n, cell)
    }

    /// An entry of that log.
    #[tactic(auto, unfolding(layout::specs::Pool::entry_seen, layout::specs::Parts::part, layout::specs::Parts::splice), using(layout::specs::Lends::looks))]
    #[inline(always)]
    pub fn entry(self, block: u32, cell: u32, index: u32) -> Result<Entry, Damaged>
        ensures { result ≡ entry_seen self.entry.words.now self.entry.sizes block cell index }
    {
        let part = self.part(block)?;
        block::entry(&self.words[part], self.sizes.n, cell, index)
    }
}

impl PoolMut<'_> {
    ghost use Rattle.std.specs.Prelude.{◌≡◌, is_ok};
    ghost use Rattle.acts.specs.Touch as touch;
    ghost use Rattle.layout.specs.Pool.{exchange_seen, raised, touched_in};
    ghost use Rattle.pool.specs.Loans.{IsSameLoan};

    /// If V of the block is the number, V becomes one more; it answers whether it did.
    #[tactic(auto, using(layout::specs::Lends::touches, layout::specs::Lends::looks), unfolding(layout::specs::Pool::exchange_seen, layout::specs::Parts::part, layout::specs::Parts::splice))]
    pub fn exchange(&mut self, block: u32, number: u32) -> Result<bool, Damaged>
        ensures words { (self.new.words.now, raised result) ≡ touched_in self.old.words.now self.old.sizes (touch.Exchange block number) }
        ensures answer { result ≡ exchange_seen self.old.words.now self.old.sizes block number }
        ensures same { IsSameLoan self.old self.new }
    {
        let part = self.as_pool().part(block)?;
        block::exchange(&mut self.words[part], self.sizes.n, number)
    }

    /// Adds an entry to the log of its cell.
    #[tactic(auto, using(layout::specs::Lends::touches), unfolding(layout::specs::Parts::part, layout::specs::Parts::splice))]
    pub fn append(&mut self, block: u32, cell: u32, entry: Entry) -> Result<(), Damaged>
        ensures words { (self.new.words.now, is_ok result) ≡ touched_in self.old.words.now self.old.sizes (touch.Append block cell entry) }
        ensures same { IsSameLoan self.old self.new }
    {
        let part = self.as_pool().part(block)?;
        block::append(&mut self.words[part], self.sizes.n, cell, entry)
    }

    /// Writes its cell.
    #[tactic(auto, using(layout::specs::Lends::touches), unfolding(layout::specs::Parts::part, layout::specs::Parts::splice))]
    pub fn write(&mut self, block: u32, cell: u32, value: u32) -> Result<(), Damaged>
        ensures words { (self.new.words.now, is_ok result) ≡ touched_in self.old.words.now self.old.sizes (touch.Write block cell value) }
        ensures same { IsSameLoan self.old self.new }
    {
        let part = self.as_pool().part(block)?;
        block::write(&mut self.words[part], self.sizes.n, cell, value)
    }

    /// Takes the block: V becomes 0, and nothing is in its arena.
    #[tactic(auto, using(layout::specs::Lends::touches), unfolding(layout::specs::Parts::part, layout::specs::Parts::splice))]
    pub fn take(&mut self, block: u32) -> Result<(), Damaged>
        ensures words { (self.new.words.now, is_ok result) ≡ touched_in self.old.words.now self.old.sizes (touch.Take block) }
        ensures same { IsSameLoan self.old self.new }
    {
        let part = self.as_pool().part(block)?;
        block::take(&mut self.words[part], self.sizes.n)
    }

    /// Writes a cell of a block being filled, and empties its log.
    #[tactic(auto, using(layout::specs::Lends::touches), unfolding(layout::specs::Parts::part, layout::specs::Parts::splice))]
    pub fn fill(&mut self, block: u32, cell: u32, value: u32) -> Result<(), Damaged>
        ensures words { (self.new.words.now, is_ok result) ≡ touched_in self.old.words.now self.old.sizes (touch.Fill block cell value) }
        ensures same { IsSameLoan self.old self.new }
    {
        let part = self.as_pool().part(block)?;
        block::fill(&mut self.words[part], self.sizes.n, cell, value)
    }
}
