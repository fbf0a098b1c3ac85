// Rule 7: the codes and ranges of slots, and the words of blocks on which live handles stand.
ghost use Rattle.std.specs.Prelude.{◌≡◌, ◌<◌};
ghost use Rattle.theorems.specs.Terms.{all_to};
ghost use Rattle.survey.specs.Rules.{Rule2};
ghost use Rattle.survey.specs.Broken.{slot_sound, laid_at};
ghost use Rattle.survey.specs.Holds.{slot_holds};
ghost use Rattle.survey.specs.Stands.{Marked};

use pool::Pool;
use rulebook::{LAST_SERIAL, Slot};
use survey::all_below;
use survey::stands::stood_on;

// Only a live slot has a block and a number, and it has carried a handle.
#[tactic(auto, unfolding(survey::specs::Holds::slot_holds, rulebook::specs::Sizes::last_serial))]
fn slot_holds(slot: Slot) -> bool
    ensures { result ≡ slot_holds slot }
{
    if slot.is_live() {
        1 <= slot.serial && slot.serial <= LAST_SERIAL
    } else {
        slot.serial <= LAST_SERIAL && slot.block == 0 && slot.number == 0
    }
}

#[tactic(auto, using(crate::proofs::Sounding::slots))]
fn slot_sound(pool: Pool<'_>, slot: u32) -> bool
    requires two { Rule2 pool.sizes pool.words.now }
    requires there { slot < pool.sizes.h }
    ensures { result ≡ slot_sound pool.entry.sizes pool.entry.words.now slot }
{
    pool.ranged_slot(slot).is_ok_and(slot_holds)
}

// Where rule 2 holds.
pub fn slots_sound(pool: Pool<'_>) -> bool
    requires { Rule2 pool.sizes pool.words.now }
    ensures { result ≡ all_to (slot_sound pool.entry.sizes pool.entry.words.now) pool.entry.sizes.h }
{
    all_below(pool.sizes.h, move |slot| slot_sound(pool, slot))
}

#[tactic(auto, unfolding(survey::specs::Broken::laid_at), using(survey::proofs::Marking::told, crate::proofs::Sounding::laid_is))]
fn laid_at(pool: Pool<'_>, stood: &[u32], block: u32) -> bool
    requires marks { Marked pool.sizes pool.words.now stood.now }
    requires there { block < pool.sizes.b }
    ensures { result ≡ laid_at pool.entry.sizes pool.entry.words.now block }
{
    !stood_on(stood, block) || pool.laid(block)
}

pub fn blocks_laid(pool: Pool<'_>, stood: &[u32]) -> bool
    requires { Marked pool.sizes pool.words.now stood.now }
    ensures { result ≡ all_to (laid_at pool.entry.sizes pool.entry.words.now) pool.entry.sizes.b }
{
    all_below(pool.sizes.b, move |block| laid_at(pool, stood, block))
}
