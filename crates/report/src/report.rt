//! A reporter, which keeps what it has seen, and the text that entries add to a history's.
ghost use Rattle.std.specs.Prelude.{◌≡◌, ◌≤◌, IfOk, OnOk, OnErr, length};
ghost use Rattle.report.specs.Seen.{seen_of};
ghost use Rattle.report.specs.Text.{seen_after, told, text_after};

use crate::log::Log;
use crate::seen::Seen;
use crate::tell::tell;
use core_state::{Entry, State};
use heat_value::Text;
use std::alloc::{AllocError, Global};
use std::marker::Model;

/// What a history has shown so far, so that what comes is told with no look back.
#[derive(Debug, Drop)]
pub struct Reporter {
    alloc: Global,
    seen: Seen,
}

impl Model for Reporter {
    ghost use Rattle.std.specs.Coded.{codes};
    ghost use Rattle.heat_value.specs.Code.{data_code, members_code};
    ghost use Rattle.report.specs.Seen.{SeenData};
    ghost use Rattle.report.specs.Undone.{shown};

    ghost Value = { SeenData };

    ghost coded = { Prim.hlevel (codes, data_code, members_code) };

    ghost view = { λ r. shown r.seen };
}

impl Reporter {
    /// What is seen in the opening state.
    pub fn new(alloc: Global, opening: &State) -> Result<Reporter, AllocError>
        ensures { IfOk result (λ r. r ≡ seen_of opening.now.state) }
    {
        Ok(Reporter {
            alloc,
            seen: Seen::of(alloc, opening)?,
        })
    }

    /// What these entries add to the text; without memory nothing is seen of them.
    pub fn add(&mut self, entries: &[Entry]) -> Result<Text, AllocError>
        ensures text { IfOk result (λ t. t ≡ told self.old entries.now) }
        ensures seen { OnOk result (self.new ≡ seen_after self.old entries.now) }
        ensures err { OnErr result (self.new ≡ self.old) }
    {
        let mut log = Log::new(self.alloc);
        match tell(self.alloc, &mut self.seen, &mut log, entries) {
            Ok(text) => Ok(Text::from_string(text)),
            Err(error) => {
                self.seen.unwind(log);
                Err(error)
            }
        }
    }
}

/// What the entries from this place on add to the text of the history.
pub fn lines_of(
    alloc: Global,
    opening: &State,
    entries: &[Entry],
    from: usize,
) -> Result<Text, AllocError>
    requires { from ≤ length entries.now }
    ensures { IfOk result (λ t. t ≡ text_after opening.now.state entries.now from) }
{
    let mut reporter = Reporter::new(alloc, opening)?;
    let _ = reporter.add(&entries[..from])?;
    reporter.add(&entries[from..])
}
