//! Why a command, an engine's change or a step is refused.
ghost use Rattle.std.specs.Prelude.{◌≡◌, option_map, Option, codes};
ghost use Rattle.std.specs.Prelude.{ℕ, List};

use std::alloc::AllocError;

/// Why nothing was changed; a line that met a refusal with a code is noted with it.
#[derive(Clone, Copy, Debug, PartialEq, Eq)]
pub enum Refusal {
    /// E10: the stack is in the table.
    StackExists,
    /// E11: no such stack.
    NoStack,
    /// E12: the stack is being deleted.
    Deleting,
    /// E13: 256 stacks are there.
    TooManyStacks,
    /// E14: the rows in the table and the items pass 4,000.
    TooManyRows,
    /// E15: a number to be drawn would be 2^62.
    Worn,
    /// E16: no such engine is live.
    NoEngine,
    /// E17: 64 engines are live.
    TooManyEngines,
    /// E20: the stack's newest traversal isn't an unmarked create or update.
    NotRunning,
    /// The disk failed.
    DiskFault,
    /// There was no memory.
    Memory,
}

impl Refusal {
    ghost use Rattle.heat_plan.specs.Refusals.{code_of};

    /// The code of a refusal that a line is noted with; the disk and memory have none.
    pub fn code(&self) -> Option<&'static str>
        ensures { option_map (λ c. c.now) result ≡ code_of self.now }
    {
        match self {
            Refusal::StackExists => Some("E10"),
            Refusal::NoStack => Some("E11"),
            Refusal::Deleting => Some("E12"),
            Refusal::TooManyStacks => Some("E13"),
            Refusal::TooManyRows => Some("E14"),
            Refusal::Worn => Some("E15"),
            Refusal::NoEngine => Some("E16"),
            Refusal::TooManyEngines => Some("E17"),
            Refusal::NotRunning => Some("E20"),
            Refusal::DiskFault | Refusal::Memory => None,
        }
    }
}

impl From<AllocError> for Refusal {
    ghost use Rattle.std.specs.Prelude.{◌≡◌};
    ghost use Rattle.heat_plan.specs.declared.refusal.Refusal.TheVariants.{Memory};

    ghost from_gives = { λ _ e. e ≡ Memory };

    fn from(_error: AllocError) -> Refusal {
        Refusal::Memory
    }
}
