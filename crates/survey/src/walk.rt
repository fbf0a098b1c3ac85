// Rule 3: the walk over blocks, cells and log entries.
ghost use Rattle.std.specs.Prelude.{◌≡◌};
ghost use Rattle.survey.specs.Rules.{Rule2};
ghost use Rattle.survey.specs.Broken.{rule3};
ghost use Rattle.survey.specs.Stands.{Marked};

use super::stands::stood_on;
use pool::Pool;
use rulebook::MOST_CELLS;

// A mark for each version that an entry may have: V is at most N + 1. It is 0 once met.
const VERSIONS: usize = MOST_CELLS as usize + 1;

/// Rule 3, where rule 2 holds.
pub fn logs_hold(pool: Pool<'_>, stood: &[u32]) -> bool
    requires { Rule2 pool.sizes pool.words.now × Marked pool.sizes pool.words.now stood.now }
    ensures { result ≡ rule3 pool.entry.sizes pool.entry.words.now }
{
    let mut kept = true;
    // The walk over blocks, cells and entries is left by a label at the first broken entry: the form is asked for.
    'walk: for block in 0..pool.sizes.b {
        if !stood_on(stood, block) {
            continue;
        }
        let version = pool.raw_version(block);
        let mut marks = [1u32; VERSIONS];
        for cell in 0..pool.sizes.n {
            let length = pool.raw_length(block, cell);
            if version < length {
                kept = false;
                break 'walk;
            }
            let mut least = 0;
            for index in 0..length {
                let stamp = pool.raw_stamp(block, cell, index);
                if version <= stamp || stamp < least || marks[stamp as usize] == 0 {
                    kept = false;
                    break 'walk;
                }
                marks[stamp as usize] = 0;
                least = stamp + 1;
            }
        }
    }
    kept
}
