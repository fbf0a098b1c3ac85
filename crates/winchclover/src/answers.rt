// What C reads of an answer: the refusal number, and the first 16 words of the answer slice.
// That there are 16 is a clause: the slice is C's, and the lines before the call have tested it.
ghost use Rattle.std.specs.Prelude.{◌≡◌, ◌≤◌, ◌++◌, length, drop, replicate};
ghost use Rattle.acts.specs.Told.{reply_of, shown_as, shown_of, told_as};
ghost use Rattle.winchclover.specs.Answered.{listed, said_in, words_in};

use acts::{Refusal, Shown, Told};
use rulebook::Task;

// Eight numbers, and 0 in the rest of 16.
// The words that document 01 lists, each stored by its number: of a copy of all eight in one call the clause was not proved.
fn list(answer: &mut [u32], numbers: [u32; 8])
    requires { 16 ≤ length answer.old }
    ensures { answer.new ≡ listed numbers ++ drop 16 answer.old }
{
    answer[0] = numbers[0];
    answer[1] = numbers[1];
    answer[2] = numbers[2];
    answer[3] = numbers[3];
    answer[4] = numbers[4];
    answer[5] = numbers[5];
    answer[6] = numbers[6];
    answer[7] = numbers[7];
    answer[8..16].fill(0);
}

// A look at a task: what its next step does, and its get in hand.
#[tactic(auto, unfolding(crate::specs::Answered::words_in, rulebook::specs::State::list_to))]
fn list_task(answer: &mut [u32], task: Task)
    requires { 16 ≤ length answer.old }
    ensures { answer.new ≡ words_in answer.old (shown_as (Shown.Task task)) }
{
    let hand = task.hand;
    let found = if hand.found { 1 } else { 0 };
    list(
        answer,
        [
            task.stage.operation(),
            task.stage.number(),
            hand.cell,
            hand.lo,
            hand.hi,
            hand.guess,
            hand.candidate,
            found,
        ],
    );
}

// The numbers of what is told.
#[tactic(auto, unfolding(crate::specs::Answered::words_in, rulebook::specs::State::list_to))]
fn list_told(answer: &mut [u32], told: Told)
    requires { 16 ≤ length answer.old }
    ensures { answer.new ≡ words_in answer.old (told_as told) }
{
    match told {
        Told::Quiet => answer[..16].fill(0),
        Told::Opened { blocks } => list(answer, [blocks, 0, 0, 0, 0, 0, 0, 0]),
        Told::Handed { cell, value } => list(answer, [1, 0, 0, cell, value, 0, 0, 0]),
        Told::HandedLast { steps, cell, value } => list(
            answer,
            [3, steps, 0, cell, value, 0, 0, 0],
        ),
        Told::Got { steps, cell, value } => list(answer, [2, steps, 0, cell, value, 0, 0, 0]),
        Told::Made { steps, handle } => list(answer, [2, steps, handle, 0, 0, 0, 0, 0]),
    }
}

// The numbers of what is shown.
#[tactic(auto, unfolding(crate::specs::Answered::words_in, rulebook::specs::State::list_to))]
fn list_shown(answer: &mut [u32], shown: Shown)
    requires { 16 ≤ length answer.old }
    ensures { answer.new ≡ words_in answer.old (shown_as shown) }
{
    match shown {
        Shown::Number(number) => list(answer, [number, 0, 0, 0, 0, 0, 0, 0]),
        Shown::Entry(entry) => list(answer, [entry.version, entry.old, 0, 0, 0, 0, 0, 0]),
        Shown::Task(task) => list_task(answer, task),
        Shown::Report { handles, blocks } => list(answer, [handles, blocks, 0, 0, 0, 0, 0, 0]),
    }
}

/// The words of an answer; the refusal number is returned, 0 for none. A refusal leaves 16 zeros, but that no block is free tells the steps.
#[tactic(auto, unfolding(crate::specs::Answered::said_in, crate::specs::Answered::words_in, rulebook::specs::State::list_to))]
pub fn tell(answer: &mut [u32], told: Result<Told, Refusal>) -> u32
    requires { 16 ≤ length answer.old }
    ensures { (answer.new, result) ≡ said_in answer.old (reply_of told) }
{
    match told {
        Ok(told) => {
            list_told(answer, told);
            0
        }
        Err(refusal) => {
            match refusal {
                Refusal::Full { steps } => list(answer, [2, steps, 0, 0, 0, 0, 0, 0]),
                _ => answer[..16].fill(0),
            }
            u32::from(refusal)
        }
    }
}

/// The same of a look.
#[tactic(auto, unfolding(crate::specs::Answered::said_in, crate::specs::Answered::words_in, rulebook::specs::State::list_to))]
pub fn show(answer: &mut [u32], shown: Result<Shown, Refusal>) -> u32
    requires { 16 ≤ length answer.old }
    ensures { (answer.new, result) ≡ said_in answer.old (shown_of shown) }
{
    match shown {
        Ok(shown) => {
            list_shown(answer, shown);
            0
        }
        Err(refusal) => tell(answer, Err(refusal)),
    }
}
