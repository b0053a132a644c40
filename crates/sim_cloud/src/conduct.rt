//! How the calls of a simulated cloud go, by its settings.
ghost use Rattle.std.specs.Prelude.{◌≡◌, ◌≤◌, ◌+◌, All, option_map};
ghost use Rattle.sim_cloud.specs.Conduct.{is_listed as listed, course_in, delay_in, code_in};
ghost use Rattle.sim_cloud.specs.declared.settings.KindDelay.{KindDelay as delay_type};

use crate::course::Course;
use crate::settings::{KindDelay, NameCode};
use heat_value::{Seq, Text};

/// The delays of kinds, the codes of broken names, and the numbers of the calls that fail.
#[derive(Debug, Drop)]
pub struct Conduct {
    pub delays: Seq<KindDelay>,
    pub broken: Seq<NameCode>,
    pub faults: Seq<u64>,
    pub late: Seq<u64>,
    ghost few: { All (λ (d : delay_type). d.polls ≤ 64) delays },
}

impl Conduct {
    /// The course of the call behind so many. One that is listed twice fails with nothing done.
    pub fn course(&self, made: usize) -> Course
        ensures { result ≡ course_in self.now.faults self.now.late (made + 1) }
    {
        if is_listed(self.faults.as_slice(), made) {
            Course::Fails
        } else if is_listed(self.late.as_slice(), made) {
            Course::FailsLate
        } else {
            Course::Works
        }
    }

    /// How many polls are left after an accepted request for this kind.
    pub fn delay(&self, kind: &Text) -> u8
        ensures polls { result ≡ delay_in self.now.delays kind.now }
        ensures few { result ≤ 64 }
    {
        for delay in self.delays.as_slice() {
            if delay.kind == *kind {
                return delay.polls;
            }
        }
        0
    }

    /// With which code the polls of resources of this name are broken.
    pub fn code(&self, name: &str) -> Option<&Text>
        ensures { option_map (λ c. c.now) result ≡ code_in self.now.broken name.now }
    {
        for one in self.broken.as_slice() {
            if one.name.as_str() == name {
                return Some(&one.code);
            }
        }
        None
    }
}

// Whether the number of the call behind so many is listed.
fn is_listed(numbers: &[u64], made: usize) -> bool
    ensures { result ≡ listed numbers.now (made + 1) }
{
    for number in numbers {
        if number.checked_sub(1) == Some(made as u64) {
            return true;
        }
    }
    false
}
