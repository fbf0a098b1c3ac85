// The rules in their order.
ghost use Rattle.std.specs.Prelude.{◌≡◌, Err, Ok, if◌then◌else◌};
ghost use Rattle.survey.specs.Broken.{broken_in, broken_of};
ghost use Rattle.survey.specs.Stands.{Marked};
ghost use Rattle.audit.specs.Rule.{number_of, rule_in};

use super::seven::rule_seven;
use pool::Pool;
use rulebook::MOST_BLOCKS;
use survey::apart::all_apart;
use survey::handles::all_stand;
use survey::holds::all_held_once;
use survey::stands::mark_stood;
use survey::tally::all_few;
use survey::walk::logs_hold;

/// Document 01's rules of a sound store.
#[derive(Clone, Copy, Debug, PartialEq, Eq)]
pub enum Rule {
    /// 1: the first words describe the pool.
    Header,
    /// 2: live handles stand on blocks, at numbers within their versions.
    Handles,
    /// 3: the logs of these blocks can be walked, their versions rise, and no version stands in two.
    Logs,
    /// 4: their entries are few.
    Entries,
    /// 5: no two live handles share block and number.
    Numbers,
    /// 6: what tasks name is live, and what they hold is theirs alone.
    Tasks,
    /// 7: codes, ranges, steps, what tasks have done, and the blocks' words.
    Layout,
}

impl From<Rule> for u32 {
    ghost from_gives = { λ rule number. number ≡ number_of rule };

    fn from(rule: Rule) -> u32 {
        match rule {
            Rule::Header => 1,
            Rule::Handles => 2,
            Rule::Logs => 3,
            Rule::Entries => 4,
            Rule::Numbers => 5,
            Rule::Tasks => 6,
            Rule::Layout => 7,
        }
    }
}

// The rule is broken where the test fails.
fn require(holds: bool, rule: Rule) -> Result<(), Rule>
    ensures { result ≡ if holds then Ok tt else Err rule }
{
    if holds { Ok(()) } else { Err(rule) }
}

// Rules 2 to 7, of a pool on whose marked blocks live handles stand.
#[tactic(auto, unfolding(survey::specs::Broken::broken_of), using(crate::proofs::Ordering::holds))]
fn rules_hold(pool: Pool<'_>, stood: &[u32]) -> Result<(), Rule>
    requires { Marked pool.sizes pool.words.now stood.now }
    ensures { rule_in result ≡ broken_of pool.entry.sizes pool.entry.words.now }
{
    require(all_stand(pool), Rule::Handles)?;
    require(logs_hold(pool, stood), Rule::Logs)?;
    require(all_few(pool, stood), Rule::Entries)?;
    require(all_apart(pool), Rule::Numbers)?;
    require(all_held_once(pool), Rule::Tasks)?;
    require(rule_seven(pool, stood), Rule::Layout)
}

/// Whether the words are a sound store; where they are not, the first of document 01's rules that they break.
#[tactic(auto, using(crate::proofs::Ordering::checks))]
pub fn check(words: &[u32]) -> Result<(), Rule>
    ensures { rule_in result ≡ broken_in words.now }
{
    let pool = Pool::of(words).ok_or(Rule::Header)?;
    let mut stood = [1u32; MOST_BLOCKS as usize];
    mark_stood(pool, &mut stood);
    rules_hold(pool, &stood)
}
