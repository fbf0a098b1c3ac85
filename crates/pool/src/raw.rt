// What the check reads of a block: its words as they stand, whatever they say.
use super::view::Pool;

impl Pool<'_> {
    ghost use Rattle.std.specs.Prelude.{◌≡◌, ◌≤◌, ◌<◌};
    ghost use Rattle.block.specs.Layout.{bump_of, length_of, version_of};
    ghost use Rattle.block.specs.Raw.{stamp_in};
    ghost use Rattle.block.specs.Sound.{Laid};
    ghost use Rattle.block.specs.Walk.{Decides};
    ghost use Rattle.layout.specs.Places.{block_part};

    /// V of the block.
    #[tactic(auto, using(layout::specs::Raw::raws), unfolding(layout::specs::Parts::part, layout::specs::Parts::splice))]
    pub fn raw_version(self, block: u32) -> u32
        requires { block < self.sizes.b }
        ensures { result ≡ version_of (block_part self.entry.words.now self.entry.sizes block) }
    {
        block::raw_version(&self.words[self.part_of(block)], self.sizes.n)
    }

    /// How many places of its arena are taken.
    #[tactic(auto, using(layout::specs::Raw::raws), unfolding(layout::specs::Parts::part, layout::specs::Parts::splice))]
    pub fn raw_bump(self, block: u32) -> u32
        requires { block < self.sizes.b }
        ensures { result ≡ bump_of (block_part self.entry.words.now self.entry.sizes block) }
    {
        block::raw_bump(&self.words[self.part_of(block)], self.sizes.n)
    }

    /// The length of the log of its cell.
    #[tactic(auto, using(layout::specs::Raw::raws), unfolding(layout::specs::Parts::part, layout::specs::Parts::splice))]
    pub fn raw_length(self, block: u32, cell: u32) -> u32
        requires { (block < self.sizes.b) × (cell < self.sizes.n) }
        ensures { result ≡ length_of self.entry.sizes.n (block_part self.entry.words.now self.entry.sizes block) cell }
    {
        block::raw_length(&self.words[self.part_of(block)], self.sizes.n, cell)
    }

    /// The version of an entry of that log, wherever the log ends.
    #[tactic(auto, using(layout::specs::Raw::raws), unfolding(layout::specs::Parts::part, layout::specs::Parts::splice))]
    pub fn raw_stamp(self, block: u32, cell: u32, index: u32) -> u32
        requires { (block < self.sizes.b) × (cell < self.sizes.n) × (index ≤ self.sizes.n) }
        ensures { result ≡ stamp_in self.entry.sizes.n (block_part self.entry.words.now self.entry.sizes block) cell index }
    {
        block::raw_stamp(&self.words[self.part_of(block)], self.sizes.n, cell, index)
    }

    /// Whether its words are laid out as a block's are.
    #[tactic(auto, using(layout::specs::Raw::raws), unfolding(layout::specs::Parts::part, layout::specs::Parts::splice))]
    pub fn laid(self, block: u32) -> bool
        requires { block < self.sizes.b }
        ensures { Decides result (Laid self.entry.sizes.n (block_part self.entry.words.now self.entry.sizes block)) }
    {
        block::laid(&self.words[self.part_of(block)], self.sizes.n)
    }
}
