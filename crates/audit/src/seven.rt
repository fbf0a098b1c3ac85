// Rule 7: its parts in their order.
// What a part asks for (the rules, Marked, Paced, Known, Facts) is a clause: the tests before have shown it of these words, and no value carries it.
ghost use Rattle.std.specs.Prelude.{◌≡◌};
ghost use Rattle.survey.specs.Rules.{Rule2, Rule3, Rule6};
ghost use Rattle.survey.specs.Broken.{rule7};
ghost use Rattle.survey.specs.Stands.{Marked};

use super::facts::tasks_done;
use super::fillers::fillers_laid;
use super::paces::tasks_sound;
use super::slots::{blocks_laid, slots_sound};
use super::writers::writers_hold;
use pool::Pool;

// Where rules 2, 3 and 6 hold.
#[tactic(auto, unfolding(survey::specs::Broken::rule7))]
pub fn rule_seven(pool: Pool<'_>, stood: &[u32]) -> bool
    requires two { Rule2 pool.sizes pool.words.now }
    requires three { Rule3 pool.sizes pool.words.now }
    requires six { Rule6 pool.sizes pool.words.now }
    requires marks { Marked pool.sizes pool.words.now stood.now }
    ensures { result ≡ rule7 pool.entry.sizes pool.entry.words.now }
{
    slots_sound(pool)
        && tasks_sound(pool)
        && writers_hold(pool)
        && tasks_done(pool)
        && blocks_laid(pool, stood)
        && fillers_laid(pool)
}
