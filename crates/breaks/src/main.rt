// The check on a store that it passes, and on copies of it in which each rule in turn is broken.
#![tactic(auto)]

ghost use Rattle.std.specs.Prelude.{◌<◌};
ghost use Rattle.breaks.specs.declared.kept.TheConstants.{POOL_WORDS};

mod kept;

use client::asked;
use kept::{POOL_WORDS, Words, kept};
use std::io;
use winchclover::winch_check;

// Where the words of a store of 2 cells, 4 handles and 2 tasks lie.
const SLOT_0: usize = 16;

const SLOT_1: usize = 20;

const TASK_1: usize = 64;

const BLOCK_0: usize = 96;

const LENGTHS: usize = 114;

const DIRECTORY: usize = 116;

const ARENA: usize = 142;

// A word of the store, and what is written there.
#[derive(Clone, Copy, Debug)]
struct Change {
    place: usize,
    word: u32,
    ghost inside: { place < POOL_WORDS },
}

fn word_to(place: usize, word: u32) -> Change
    requires { place < POOL_WORDS }
{
    Change { place, word }
}

// A rule, and the changes that break it.
#[derive(Clone, Copy, Debug)]
struct Case<'a> {
    rule: &'a str,
    changes: &'a [Change],
}

fn verdict(rt: &impl Print, words: &Words) -> io::Result<()> {
    match asked(|answer| winch_check(words, answer)) {
        Ok(answer) => {
            let [broken, ..] = answer;
            println!(rt; " the check answers {broken}")
        }
        Err(refused) => println!(rt; " {refused}"),
    }
}

// Prints the changes of a copy of the store, and what the check answers then.
fn broken(rt: &impl Print, mut words: Words, case: Case<'_>) -> io::Result<()> {
    let rule = case.rule;
    print!(rt; "{rule}:")?;
    for change in case.changes {
        let Change { place, word } = *change;
        let old = words[place];
        words[place] = word;
        print!(rt; " word {place} from {old} to {word},")?;
    }
    verdict(rt, &words)
}

fn main(rt: HostRuntime) -> io::Result<()> {
    let words = match kept() {
        Ok(words) => words,
        Err(refused) => return println!(rt; "{refused}"),
    };
    let cases = [
        Case {
            rule: "rule 1, the header describes the pool",
            changes: &[word_to(5, 7)],
        },
        Case {
            rule: "rule 2, a handle stands on a block of the pool",
            changes: &[word_to(SLOT_0 + 2, 2)],
        },
        Case {
            rule: "rule 3, versions rise along a log",
            changes: &[word_to(ARENA + 2, 0)],
        },
        Case {
            rule: "rule 4, a block has at most N entries",
            changes: &[
                word_to(BLOCK_0, 3),
                word_to(BLOCK_0 + 1, 4),
                word_to(LENGTHS + 1, 1),
                word_to(DIRECTORY + 13, 3),
                word_to(ARENA + 6, 2),
            ],
        },
        Case {
            rule: "rule 5, no two handles share block and number",
            changes: &[word_to(SLOT_1 + 3, 2)],
        },
        Case {
            rule: "rule 6, a task's handle is live",
            changes: &[word_to(TASK_1 + 1, 2)],
        },
        Case {
            rule: "rule 7, the bump counts the places that logs hold",
            changes: &[word_to(BLOCK_0 + 1, 2)],
        },
    ];
    print!(rt; "a kept store:")?;
    verdict(&rt, &words)?;
    for case in cases {
        broken(&rt, words, case)?;
    }
    Ok(())
}
