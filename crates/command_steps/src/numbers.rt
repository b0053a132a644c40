//! The numbers that a command draws.
ghost use Rattle.std.specs.Prelude.{◌≡◌, ◌↔◌, ◌≤◌, ◌+◌, ◌^◌, IsTrue};
ghost use Rattle.step_relation.specs.Commands.{past_command};
ghost use Rattle.command_steps.specs.Layouts.{HasNumbers};

use core_state::{Next, Numbers};
use heat_plan::WORN;

/// Whether a traversal and so many stacks, rows and letters can be numbered.
pub(crate) fn has_numbers(next: &Numbers, stacks: u64, rows: usize, letters: usize) -> bool
    ensures { IsTrue result ↔ HasNumbers next.now stacks rows letters }
{
    has_room(next.stack, stacks)
        && has_room(next.trav, 1)
        && has_room(next.row, rows as u64)
        && has_room(next.engine, 0)
        && has_room(next.letter, letters as u64)
}

// Whether so many more of a sort can be drawn.
fn has_room(next: Next, more: u64) -> bool
    ensures { IsTrue result ↔ (next + more ≤ 2 ^ 62) }
{
    more <= WORN - next.get()
}

/// The next numbers behind a command.
pub(crate) fn past_command(next: &Numbers, stacks: u64, rows: usize, letters: usize) -> Numbers
    requires { HasNumbers next.now stacks rows letters }
    ensures { result ≡ past_command next.now stacks rows letters }
{
    Numbers {
        stack: next.stack.after(stacks),
        trav: next.trav.after(1),
        row: next.row.after(rows as u64),
        engine: next.engine,
        letter: next.letter.after(letters as u64),
    }
}
