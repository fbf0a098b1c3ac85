// The limits of a store, and how many words its parts take.
ghost use Rattle.std.specs.Prelude.{◌≡◌, ◌≤◌};
ghost use Rattle.rulebook.specs.Sizes.{most_cells, most_handles, most_tasks, control_words, block_words};

pub const MOST_CELLS: u32 = 4096;

pub const MOST_HANDLES: u32 = 256;

pub const MOST_TASKS: u32 = 16;

pub const MOST_BLOCKS: u32 = 256;

pub const LAST_SERIAL: u32 = 16777215;

/// A handle's public number is its slot and so many times its serial.
pub const SLOTS: u32 = 256;

/// The words of the header, of a handle row and of a task row.
pub const HEADER_WORDS: u32 = 16;

pub const HANDLE_ROW: u32 = 4;

pub const TASK_ROW: u32 = 32;

/// How many words the header and the rows take.
#[tactic(auto, unfolding(crate::specs::Sizes::control_words))]
pub fn control_words(handles: u32, tasks: u32) -> u32
    requires { (handles ≤ most_handles) × (tasks ≤ most_tasks) }
    ensures { (result ≡ control_words handles tasks) × (result ≤ 1552) }
{
    HEADER_WORDS + HANDLE_ROW * handles + TASK_ROW * tasks
}

/// How many words a block takes.
#[tactic(auto, unfolding(crate::specs::Sizes::block_words))]
pub fn block_words(cells: u32) -> u32
    requires { cells ≤ most_cells }
    ensures { (result ≡ block_words cells) × (result ≤ 81936) }
{
    20 * cells + 16
}
