//! The simulated cloud.
ghost use Rattle.std.specs.Prelude.{◌≡◌, [], IfOk};

use crate::conduct::Conduct;
use crate::course::Course;
use crate::holdings::Holdings;
use crate::inventory::Inventory;
use crate::settings::Settings;
use heat_plan::Token;
use std::alloc::AllocError;

/// A cloud in memory, with its trace, and how its calls go.
#[derive(Debug)]
pub struct SimCloud {
    pub(crate) all: Inventory,
    pub(crate) conduct: Conduct,
}

impl Drop for SimCloud {
    fn drop(self) {
        let SimCloud { all: _, conduct: _ } = self;
    }
}

impl SimCloud {
    ghost use Rattle.std.specs.Prelude.{◌≤◌};
    ghost use Rattle.sim_cloud.specs.Settings.{IsFit};
    ghost use Rattle.sim_cloud.specs.Simulated.{course_of, delay_at};

    /// A cloud of which no call was made, with these settings.
    pub fn new(settings: Settings) -> Result<SimCloud, AllocError>
        requires { IsFit settings }
        ensures held { IfOk result (λ c. c.all.held.all ≡ settings.alive) }
        ensures quotas { IfOk result (λ c. c.all.quotas ≡ settings.quotas) }
        ensures delays { IfOk result (λ c. c.conduct.delays ≡ settings.delays) }
        ensures broken { IfOk result (λ c. c.conduct.broken ≡ settings.broken) }
        ensures failing { IfOk result (λ c. c.conduct.faults ≡ settings.faults) }
        ensures late { IfOk result (λ c. c.conduct.late ≡ settings.late) }
        ensures trace { IfOk result (λ c. c.all.trace ≡ []) }
        ensures faults { IfOk result (λ c. c.all.faults ≡ 0) }
    {
        let alloc = settings.alive.allocator();
        Ok(SimCloud {
            all: Inventory::holding(alloc, Holdings::of(settings.alive), settings.quotas),
            conduct: Conduct {
                delays: settings.delays,
                broken: settings.broken,
                faults: settings.faults,
                late: settings.late,
            },
        })
    }

    /// What it has.
    pub fn inventory(&self) -> &Inventory
        ensures { result.now ≡ self.now.all }
    {
        &self.all
    }

    /// How its calls go.
    pub fn conduct(&self) -> &Conduct
        ensures { result.now ≡ self.now.conduct }
    {
        &self.conduct
    }

    /// How the next call goes.
    pub(crate) fn course(&self) -> Course
        ensures { result ≡ course_of self.now }
    {
        self.conduct.course(self.all.trace.len())
    }

    /// How many polls are left after an accepted request for the token's resource.
    pub(crate) fn delay(&self, token: &Token) -> u8
        ensures polls { result ≡ delay_at self.now token.now }
        ensures few { result ≤ 64 }
    {
        match self.all.held.place_of(token) {
            Some(at) => self.conduct.delay(&self.all.held.get(at).what.kind),
            None => 0,
        }
    }
}
