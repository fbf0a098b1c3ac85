// What stands in a block.
use client::{Answer, Refused, asked};
use std::fmt;
use winchclover::{winch_look_cell, winch_look_entry, winch_look_log, winch_look_version};

// An entry of a cell's log.
#[derive(Clone, Copy, Debug)]
struct Entry {
    version: u32,
    old: u32,
}

// A cell of a block, the length of its log, and the log's oldest entry.
#[derive(Clone, Copy, Debug)]
struct Cell {
    value: u32,
    length: u32,
    oldest: Option<Entry>,
}

impl fmt::Display for Cell {
    fn fmt<W: fmt::Write>(&self, f: &mut fmt::Formatter<W>) -> fmt::Result {
        write!(f, "holds {}, its log {}", self.value, self.length)?;
        match self.oldest {
            None => Ok(()),
            Some(Entry { version, old }) => write!(f, " from ({version}, {old})"),
        }
    }
}

/// A block of two cells.
#[derive(Clone, Copy, Debug)]
pub struct Block {
    version: u32,
    cells: [Cell; 2],
}

impl fmt::Display for Block {
    fn fmt<W: fmt::Write>(&self, f: &mut fmt::Formatter<W>) -> fmt::Result {
        let version = self.version;
        let [first, second] = self.cells;
        write!(f, "V = {version}, cell 0 {first}, cell 1 {second}")
    }
}

// The first word that a look answers.
fn number<F: FnOnce(&mut Answer) -> u32>(look: F) -> Result<u32, Refused>
    requires { F.IsAlwaysCallable look }
{
    let [number, ..] = asked(look)?;
    Ok(number)
}

fn oldest(pool: &[u32], block: u32, cell: u32) -> Result<Entry, Refused> {
    let [version, old, ..] = asked(|answer| winch_look_entry(pool, block, cell, 0, answer))?;
    Ok(Entry { version, old })
}

fn cell_of(pool: &[u32], block: u32, cell: u32) -> Result<Cell, Refused> {
    let value = number(|answer| winch_look_cell(pool, block, cell, answer))?;
    let length = number(|answer| winch_look_log(pool, block, cell, answer))?;
    let oldest = if length == 0 {
        None
    } else {
        Some(oldest(pool, block, cell)?)
    };
    Ok(Cell {
        value,
        length,
        oldest,
    })
}

pub fn block_of(pool: &[u32], block: u32) -> Result<Block, Refused> {
    let version = number(|answer| winch_look_version(pool, block, answer))?;
    let cells = [cell_of(pool, block, 0)?, cell_of(pool, block, 1)?];
    Ok(Block { version, cells })
}
