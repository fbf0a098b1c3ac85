// One task at a time, from its start to its end, printed.
use client::{Answer, Said, asked};
use std::{fmt, io};
use winchclover::{
    winch_start_get, winch_start_new, winch_start_page, winch_start_set, winch_step,
};

// More steps than any task here takes.
const MOST_STEPS: u32 = 100;

/// Steps a task to its end and prints what comes of it; the steps.
pub fn finish(rt: &impl Print, pool: &mut [u32], task: u32) -> io::Result<u32> {
    for _ in 0..MOST_STEPS {
        match asked(|answer| winch_step(pool, task, answer)) {
            Ok(answer) => match Said::from(answer) {
                Said::Nothing | Said::Handed { .. } => {}
                Said::Made { steps, handle } => {
                    println!(rt; "handle {handle}, {steps} steps")?;
                    return Ok(steps);
                }
                Said::Read { steps, value, .. } => {
                    println!(rt; "{value}, {steps} steps")?;
                    return Ok(steps);
                }
            },
            Err(refused) => {
                let steps = refused.steps;
                println!(rt; "{refused} after {steps} steps")?;
                return Ok(steps);
            }
        }
    }
    println!(rt; "no end")?;
    Ok(0)
}

// Prints what is asked for, starts it as task 0 and finishes it; the steps.
fn run<F: FnOnce(&mut [u32], &mut Answer) -> u32>(
    rt: &impl Print,
    pool: &mut [u32],
    wish: impl fmt::Display + Drop,
    start: F,
) -> io::Result<u32>
    requires { F.IsAlwaysCallable start }
{
    print!(rt; "{wish}: ")?;
    match asked(|answer| start(pool, answer)) {
        Ok(_) => finish(rt, pool, 0),
        Err(refused) => {
            println!(rt; "{refused}")?;
            Ok(0)
        }
    }
}

pub fn new(rt: &impl Print, pool: &mut [u32], value: u32) -> io::Result<u32> {
    let wish = format_args!("new {value}");
    run(rt, pool, wish, |pool, answer| {
        winch_start_new(pool, 0, value, answer)
    })
}

pub fn get(rt: &impl Print, pool: &mut [u32], handle: u32, cell: u32) -> io::Result<u32> {
    let wish = format_args!("get {handle} cell {cell}");
    run(rt, pool, wish, |pool, answer| {
        winch_start_get(pool, 0, handle, cell, answer)
    })
}

pub fn set(
    rt: &impl Print,
    pool: &mut [u32],
    handle: u32,
    cell: u32,
    value: u32,
) -> io::Result<u32> {
    let wish = format_args!("set {handle} cell {cell} to {value}");
    run(rt, pool, wish, |pool, answer| {
        winch_start_set(pool, 0, handle, cell, value, answer)
    })
}

pub fn page(
    rt: &impl Print,
    pool: &mut [u32],
    handle: u32,
    from: u32,
    count: u32,
) -> io::Result<u32> {
    let wish = format_args!("page of {handle} from {from} count {count}");
    run(rt, pool, wish, |pool, answer| {
        winch_start_page(pool, 0, handle, from, count, answer)
    })
}
