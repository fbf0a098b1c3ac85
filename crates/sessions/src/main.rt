// Document 01's sessions and edges through the C functions, printed.
// The pools are arrays on the stack: their sizes are the program's inputs.
#![tactic(auto)]

mod looks;
mod tasks;

use client::{Answer, asked};
use looks::block_of;
use std::io;
use tasks::{finish, get, new, page, set};
use winchclover::{winch_open, winch_release, winch_start_get, winch_start_set, winch_step};

// Makes a call and prints whether it was accepted.
fn verdict<F: FnOnce(&mut Answer) -> u32>(rt: &impl Print, call: F) -> io::Result<()>
    requires { F.IsAlwaysCallable call }
{
    match asked(call) {
        Ok(_) => print!(rt; "accepted"),
        Err(refused) => print!(rt; "{refused}"),
    }
}

fn open(rt: &impl Print, pool: &mut [u32], cells: u32, handles: u32, tasks: u32) -> io::Result<()> {
    print!(rt; "open a pool of {} words, N = {cells}: ", pool.len())?;
    match asked(|answer| winch_open(pool, cells, handles, tasks, answer)) {
        Ok(answer) => {
            let [blocks, ..] = answer;
            println!(rt; "B = {blocks}")
        }
        Err(refused) => println!(rt; "{refused}"),
    }
}

fn release(rt: &impl Print, pool: &mut [u32], handle: u32) -> io::Result<()> {
    print!(rt; "release {handle}: ")?;
    verdict(rt, |answer| winch_release(pool, handle, answer))?;
    println!(rt; "")
}

fn show(rt: &impl Print, pool: &[u32], block: u32) -> io::Result<()> {
    match block_of(pool, block) {
        Ok(shown) => println!(rt; "block {block} has {shown}"),
        Err(refused) => println!(rt; "block {block}: {refused}"),
    }
}

// Sessions 1 to 4; the steps of the set.
fn first(rt: &impl Print, pool: &mut [u32]) -> io::Result<u32> {
    println!(rt; "sessions 1 to 4")?;
    open(rt, pool, 2, 4, 2)?;
    new(rt, pool, 7)?;
    show(rt, pool, 0)?;
    get(rt, pool, 256, 1)?;
    let steps = set(rt, pool, 256, 0, 9)?;
    show(rt, pool, 0)?;
    get(rt, pool, 256, 0)?;
    get(rt, pool, 256, 1)?;
    get(rt, pool, 257, 0)?;
    Ok(steps)
}

// Sessions 5 to 7; the steps of two sets.
fn second(rt: &impl Print, pool: &mut [u32]) -> io::Result<[u32; 2]> {
    println!(rt; "sessions 5 to 7")?;
    let copied = set(rt, pool, 256, 1, 5)?;
    show(rt, pool, 1)?;
    let in_place = set(rt, pool, 257, 0, 4)?;
    show(rt, pool, 0)?;
    set(rt, pool, 259, 0, 1)?;
    get(rt, pool, 256, 0)?;
    get(rt, pool, 257, 0)?;
    Ok([copied, in_place])
}

// Sessions 8 and 9; the steps of two sets.
fn third(rt: &impl Print, pool: &mut [u32]) -> io::Result<[u32; 2]> {
    println!(rt; "sessions 8 and 9")?;
    release(rt, pool, 258)?;
    let copied = set(rt, pool, 259, 1, 6)?;
    show(rt, pool, 0)?;
    show(rt, pool, 1)?;
    release(rt, pool, 256)?;
    let refused = set(rt, pool, 259, 0, 1)?;
    get(rt, pool, 259, 0)?;
    Ok([copied, refused])
}

// Session 10: a set by task 1 falls between the steps of a get by task 0.
fn tenth(rt: &impl Print, pool: &mut [u32]) -> io::Result<()> {
    println!(rt; "session 10")?;
    open(rt, pool, 2, 4, 2)?;
    new(rt, pool, 7)?;
    print!(rt; "get 256 cell 0 takes one step: ")?;
    verdict(rt, |answer| winch_start_get(pool, 0, 256, 0, answer))?;
    print!(rt; ", ")?;
    verdict(rt, |answer| winch_step(pool, 0, answer))?;
    print!(rt; "\nset 256 cell 0 to 9: ")?;
    verdict(rt, |answer| winch_start_set(pool, 1, 256, 0, 9, answer))?;
    print!(rt; ", ")?;
    finish(rt, pool, 1)?;
    print!(rt; "get 256 cell 0 goes on: ")?;
    finish(rt, pool, 0)?;
    Ok(())
}

// Cells, pages and handles at their limits.
fn edges(rt: &impl Print, pool: &mut [u32]) -> io::Result<()> {
    open(rt, pool, 2, 4, 2)?;
    new(rt, pool, 7)?;
    get(rt, pool, 256, 1)?;
    get(rt, pool, 256, 2)?;
    page(rt, pool, 256, 1, 1)?;
    page(rt, pool, 256, 1, 2)?;
    get(rt, pool, 255, 0)?;
    Ok(())
}

// Sizes at their limits.
fn sizes(rt: &impl Print) -> io::Result<()> {
    let mut short = [0u32; 151];
    let mut just = [0u32; 152];
    let mut large = [0u32; 82032];
    open(rt, &mut short, 2, 4, 2)?;
    open(rt, &mut just, 2, 4, 2)?;
    for cells in [0, 1, 4096, 4097] {
        open(rt, &mut large, cells, 4, 2)?;
    }
    Ok(())
}

fn main(rt: HostRuntime) -> io::Result<()> {
    let mut pool = [0u32; 208];
    let steps = first(&rt, &mut pool)?;
    let [fifth, sixth] = second(&rt, &mut pool)?;
    let [eighth, ninth] = third(&rt, &mut pool)?;
    let all = u64::from(steps)
        + u64::from(fifth)
        + u64::from(sixth)
        + u64::from(eighth)
        + u64::from(ninth);
    println!(rt; "steps of all sets: {all}")?;
    tenth(&rt, &mut pool)?;
    println!(rt; "edges")?;
    sizes(&rt)?;
    edges(&rt, &mut pool)
}
