// Opening a store: the control area is written, and the blocks stay as they lie.
ghost use Rattle.std.specs.Prelude.{◌≡◌, ◌++◌, ◌-◌, ◌≤◌, length, drop, replicate};
ghost use Rattle.rulebook.specs.Sizes.{header_words};
ghost use Rattle.acts.specs.Told.{reply_of};
ghost use Rattle.layout.specs.Header.{header_fields, headed};
ghost use Rattle.layout.specs.Pool.{open_in};

use super::headers::sizes;
use super::{FORM, MARK};
use acts::{Refusal, Told};
use rulebook::control_words;

// The test keeps the compiler from making a call of memset of it.
fn clear(part: &mut [u32])
    ensures { part.new ≡ replicate (length part.old) 0 }
{
    for word in part {
        if *word != 0 {
            *word = 0;
        }
    }
}

// Words 0 to 5, by the numbers of docs/LAYOUT.md. Their length is a clause: they are a part of the lent words, cut in open.
#[tactic(auto, unfolding(layout::specs::Header::headed))]
fn head(part: &mut [u32], cells: u32, handles: u32, tasks: u32, words: u32)
    requires { header_words ≤ length part.old }
    ensures { part.new ≡ headed cells handles tasks words ++ drop header_fields part.old }
{
    part[0] = MARK;
    part[1] = cells;
    part[2] = handles;
    part[3] = tasks;
    part[4] = words;
    part[5] = FORM;
}

// The header, and every row 0.
#[tactic(auto, using(layout::specs::Opens::openings), unfolding(layout::specs::Parts::part, layout::specs::Parts::splice))]
fn write_control(part: &mut [u32], cells: u32, handles: u32, tasks: u32, words: u32)
    requires { header_words ≤ length part.old }
    ensures { part.new ≡ headed cells handles tasks words ++ replicate (length part.old - header_fields) 0 }
{
    clear(part);
    head(part, cells, handles, tasks, words);
}

/// Makes every slot and task free, and tells B. No word changes where the sizes or the pool do not allow a store.
#[tactic(auto, unfolding(layout::specs::Pool::open_in, layout::specs::Pool::open_under, layout::specs::Parts::part, layout::specs::Parts::splice), using(layout::specs::Opens::openings))]
pub fn open(words: &mut [u32], cells: u32, handles: u32, tasks: u32) -> Result<Told, Refusal>
    ensures { (words.new, reply_of result) ≡ open_in words.old cells handles tasks }
{
    let length = words.len();
    let sizes = sizes(length, cells, handles, tasks).ok_or(Refusal::NoRoom)?;
    let control = control_words(handles, tasks) as usize;
    write_control(&mut words[0..control], cells, handles, tasks, length as u32);
    Ok(Told::Opened { blocks: sizes.b })
}
