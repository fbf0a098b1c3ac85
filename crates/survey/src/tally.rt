// Rule 4: how many entries a block has.
ghost use Rattle.std.specs.Prelude.{◌≡◌, ◌<◌};
ghost use Rattle.rulebook.specs.State.{block_at};
ghost use Rattle.theorems.specs.Terms.{entries};
ghost use Rattle.survey.specs.Rules.{Rule2, Rule3, shown};
ghost use Rattle.survey.specs.Broken.{rule4_at, rule4};
ghost use Rattle.survey.specs.Stands.{Marked};
ghost use Rattle.survey.specs.Tally.{Counts};

use super::all_below;
use super::stands::stood_on;
use pool::Pool;

/// The entries of the block's logs together.
pub fn entries_of(pool: Pool<'_>, block: u32) -> u32
    requires { Counts pool.sizes pool.words.now block }
    ensures { result ≡ entries (block_at (shown pool.entry.sizes pool.entry.words.now) block).logs }
{
    let mut total = 0;
    for cell in 0..pool.sizes.n {
        total += pool.raw_length(block, cell);
    }
    total
}

// Where a live handle stands on the block, its entries are at most V and at most N.
#[tactic(auto, unfolding(crate::specs::Broken::rule4_at))]
fn few_entries(pool: Pool<'_>, stood: &[u32], block: u32) -> bool
    requires two { Rule2 pool.sizes pool.words.now }
    requires three { Rule3 pool.sizes pool.words.now }
    requires marks { Marked pool.sizes pool.words.now stood.now }
    requires there { block < pool.sizes.b }
    ensures { result ≡ rule4_at pool.entry.sizes pool.entry.words.now block }
{
    if !stood_on(stood, block) {
        return true;
    }
    let total = entries_of(pool, block);
    total <= pool.raw_version(block) && total <= pool.sizes.n
}

/// Rule 4, where rules 2 and 3 hold.
#[tactic(auto, unfolding(crate::specs::Broken::rule4))]
pub fn all_few(pool: Pool<'_>, stood: &[u32]) -> bool
    requires two { Rule2 pool.sizes pool.words.now }
    requires three { Rule3 pool.sizes pool.words.now }
    requires marks { Marked pool.sizes pool.words.now stood.now }
    ensures { result ≡ rule4 pool.entry.sizes pool.entry.words.now }
{
    all_below(pool.sizes.b, move |block| few_entries(pool, stood, block))
}
