// The C functions: include/winchclover.h says what each takes and answers.
#![tactic(auto)]

mod answers;

ghost use Rattle.std.specs.Prelude.{◌≡◌};
ghost use Rattle.survey.specs.Broken.{broken_in};
ghost use Rattle.layout.specs.Pool.{open_in};
ghost use Rattle.layout.specs.Calls.{start_new_in, start_get_in, start_set_in, start_page_in, step_in, release_in, look_version_in, look_cell_in, look_log_in, look_entry_in, look_task_in, report_in};
ghost use Rattle.rulebook.specs.declared.Reply.TheVariants as reply;
ghost use Rattle.winchclover.specs.Answered.{answered_in, shown_in};

use acts::Shown;
use answers::{show, tell};

// The least number of words of an answer slice. Each call returns 15 itself below it, before all else: C takes a number, and each contract says so.
const ANSWER_WORDS: usize = 16;

#[tactic(auto, unfolding(crate::specs::Answered::answered_in))]
pub fn winch_open(pool: &mut [u32], cells: u32, handles: u32, tasks: u32, answer: &mut [u32]) -> u32
    ensures { ((pool.new, answer.new), result) ≡ answered_in (λ p. open_in p cells handles tasks) pool.old answer.old }
{
    if answer.len() < ANSWER_WORDS {
        return 15;
    }
    tell(answer, store::open(pool, cells, handles, tasks))
}

#[tactic(auto, unfolding(crate::specs::Answered::answered_in))]
pub fn winch_start_new(pool: &mut [u32], task: u32, value: u32, answer: &mut [u32]) -> u32
    ensures { ((pool.new, answer.new), result) ≡ answered_in (λ p. start_new_in p task value) pool.old answer.old }
{
    if answer.len() < ANSWER_WORDS {
        return 15;
    }
    tell(answer, store::start_new(pool, task, value))
}

#[tactic(auto, unfolding(crate::specs::Answered::answered_in))]
pub fn winch_start_get(
    pool: &mut [u32],
    task: u32,
    handle: u32,
    cell: u32,
    answer: &mut [u32],
) -> u32
    ensures { ((pool.new, answer.new), result) ≡ answered_in (λ p. start_get_in p task handle cell) pool.old answer.old }
{
    if answer.len() < ANSWER_WORDS {
        return 15;
    }
    tell(answer, store::start_get(pool, task, handle, cell))
}

#[tactic(auto, unfolding(crate::specs::Answered::answered_in))]
pub fn winch_start_set(
    pool: &mut [u32],
    task: u32,
    handle: u32,
    cell: u32,
    value: u32,
    answer: &mut [u32],
) -> u32
    ensures { ((pool.new, answer.new), result) ≡ answered_in (λ p. start_set_in p task handle cell value) pool.old answer.old }
{
    if answer.len() < ANSWER_WORDS {
        return 15;
    }
    tell(answer, store::start_set(pool, task, handle, cell, value))
}

#[tactic(auto, unfolding(crate::specs::Answered::answered_in))]
pub fn winch_start_page(
    pool: &mut [u32],
    task: u32,
    handle: u32,
    from: u32,
    count: u32,
    answer: &mut [u32],
) -> u32
    ensures { ((pool.new, answer.new), result) ≡ answered_in (λ p. start_page_in p task handle from count) pool.old answer.old }
{
    if answer.len() < ANSWER_WORDS {
        return 15;
    }
    tell(answer, store::start_page(pool, task, handle, from, count))
}

#[tactic(auto, unfolding(crate::specs::Answered::answered_in))]
pub fn winch_step(pool: &mut [u32], task: u32, answer: &mut [u32]) -> u32
    ensures { ((pool.new, answer.new), result) ≡ answered_in (λ p. step_in p task) pool.old answer.old }
{
    if answer.len() < ANSWER_WORDS {
        return 15;
    }
    tell(answer, store::step(pool, task))
}

#[tactic(auto, unfolding(crate::specs::Answered::answered_in))]
pub fn winch_release(pool: &mut [u32], handle: u32, answer: &mut [u32]) -> u32
    ensures { ((pool.new, answer.new), result) ≡ answered_in (λ p. release_in p handle) pool.old answer.old }
{
    if answer.len() < ANSWER_WORDS {
        return 15;
    }
    tell(answer, store::release(pool, handle))
}

#[tactic(auto, unfolding(crate::specs::Answered::shown_in))]
pub fn winch_look_version(pool: &[u32], block: u32, answer: &mut [u32]) -> u32
    ensures { (answer.new, result) ≡ shown_in (λ p. look_version_in p block) pool.now answer.old }
{
    if answer.len() < ANSWER_WORDS {
        return 15;
    }
    show(answer, store::look_version(pool, block))
}

#[tactic(auto, unfolding(crate::specs::Answered::shown_in))]
pub fn winch_look_cell(pool: &[u32], block: u32, cell: u32, answer: &mut [u32]) -> u32
    ensures { (answer.new, result) ≡ shown_in (λ p. look_cell_in p block cell) pool.now answer.old }
{
    if answer.len() < ANSWER_WORDS {
        return 15;
    }
    show(answer, store::look_cell(pool, block, cell))
}

#[tactic(auto, unfolding(crate::specs::Answered::shown_in))]
pub fn winch_look_log(pool: &[u32], block: u32, cell: u32, answer: &mut [u32]) -> u32
    ensures { (answer.new, result) ≡ shown_in (λ p. look_log_in p block cell) pool.now answer.old }
{
    if answer.len() < ANSWER_WORDS {
        return 15;
    }
    show(answer, store::look_log(pool, block, cell))
}

#[tactic(auto, unfolding(crate::specs::Answered::shown_in))]
pub fn winch_look_entry(pool: &[u32], block: u32, cell: u32, index: u32, answer: &mut [u32]) -> u32
    ensures { (answer.new, result) ≡ shown_in (λ p. look_entry_in p block cell index) pool.now answer.old }
{
    if answer.len() < ANSWER_WORDS {
        return 15;
    }
    show(answer, store::look_entry(pool, block, cell, index))
}

#[tactic(auto, unfolding(crate::specs::Answered::shown_in))]
pub fn winch_look_task(pool: &[u32], task: u32, answer: &mut [u32]) -> u32
    ensures { (answer.new, result) ≡ shown_in (λ p. look_task_in p task) pool.now answer.old }
{
    if answer.len() < ANSWER_WORDS {
        return 15;
    }
    show(answer, store::look_task(pool, task))
}

#[tactic(auto, unfolding(crate::specs::Answered::shown_in))]
pub fn winch_report(pool: &[u32], answer: &mut [u32]) -> u32
    ensures { (answer.new, result) ≡ shown_in report_in pool.now answer.old }
{
    if answer.len() < ANSWER_WORDS {
        return 15;
    }
    show(answer, store::report(pool))
}

#[tactic(auto, unfolding(crate::specs::Answered::shown_in))]
pub fn winch_check(pool: &[u32], answer: &mut [u32]) -> u32
    ensures { (answer.new, result) ≡ shown_in (λ p. reply.Shown (broken_in p)) pool.now answer.old }
{
    if answer.len() < ANSWER_WORDS {
        return 15;
    }
    show(answer, Ok(Shown::Number(broken_number(pool))))
}

// The number of the first rule that the words break, 0 for none.
fn broken_number(pool: &[u32]) -> u32
    ensures { result ≡ broken_in pool.now }
{
    match audit::check(pool) {
        Ok(()) => 0,
        Err(rule) => u32::from(rule),
    }
}
