// Random orders of many tasks, the store beside a plain model that copies whole tables.
// The pools are arrays on the stack: their sizes are the program's inputs.
#![tactic(auto)]

mod draw;
mod model;
mod run;
mod tally;

use client::asked;
use draw::Drawn;
use model::Sizes;
use run::Run;
use std::io;
use winchclover::winch_open;

// The calls of one run.
const ROUNDS: u32 = 20000;

fn orders(rt: &impl Print, pool: &mut [u32], sizes: Sizes, seed: u32) -> io::Result<()> {
    let Sizes {
        cells,
        handles,
        tasks,
    } = sizes;
    let opened = asked(|answer| winch_open(pool, cells, handles, tasks, answer));
    let (blocks, refused) = match opened {
        Ok(answer) => (answer[0], 0),
        Err(refused) => (0, refused.number),
    };
    println!(rt; "N = {cells}, H = {handles}, T = {tasks}, B = {blocks}, refused {refused}")?;
    let mut run = Run::new(pool, sizes);
    let mut drawn = Drawn(seed);
    for _ in 0..ROUNDS {
        drawn = drawn.next();
        run.turn(drawn);
    }
    let tally = run.tally;
    println!(rt; "{tally}")
}

fn main(rt: HostRuntime) -> io::Result<()> {
    let mut small = [7u32; 208];
    let mut middle = [7u32; 1000];
    let mut large = [7u32; 3600];
    let twos = Sizes {
        cells: 2,
        handles: 4,
        tasks: 2,
    };
    let fives = Sizes {
        cells: 5,
        handles: 12,
        tasks: 4,
    };
    let most = Sizes {
        cells: 16,
        handles: 16,
        tasks: 16,
    };
    let ones = Sizes {
        cells: 1,
        handles: 2,
        tasks: 2,
    };
    orders(&rt, &mut small, twos, 1)?;
    orders(&rt, &mut middle, fives, 2)?;
    orders(&rt, &mut large, most, 3)?;
    orders(&rt, &mut small, ones, 4)
}
