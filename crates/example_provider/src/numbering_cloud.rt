//! A small cloud: a resource isn't ready before the third poll, and is given its number only then.
use heat_plan::{Facts, Kind, Properties, Token};
use heat_value::{Seq, Text};
use provider::{Answer, Gone, Listed, Poll, Provider};
use sim_cloud::{Course, Inventory};
use std::alloc::{AllocError, Global};

// How many polls of a request may be answered NotYet; the engine asks for no more than this bound.
const BUDGET: u8 = 64;

// How many polls are left when a resource is ready.
const DUE: u8 = BUDGET - 2;

/// The resources, and how many numbers were given.
#[derive(Drop)]
pub struct NumberingCloud {
    all: Inventory,
    given: u64,
}

impl NumberingCloud {
    ghost use Rattle.std.specs.Prelude.{◌≡◌, [], ◌⊎◌};
    ghost use Rattle.provider.specs.Cloud.{HasNone};
    ghost use Rattle.provider.specs.Changes.{IsAsBefore};
    ghost use Rattle.provider.specs.Calls.{IsReady};
    ghost use Rattle.sim_cloud.specs.Shown.{IsUnready};
    ghost use Rattle.example_provider.specs.Numbering.{cloud_of};
    ghost use Rattle.heat_plan.specs.declared.facts.Facts.{Facts as facts_type};

    /// No resource, and no quota.
    pub fn new(alloc: Global) -> NumberingCloud
        ensures { HasNone (cloud_of result) }
    {
        NumberingCloud {
            all: Inventory::new(alloc, Seq::new(alloc)),
            given: 0,
        }
    }

    // Answers Ready with the next number.
    fn number(&mut self, token: &Token) -> Poll
        requires { IsUnready (cloud_of self.old) token.now }
        ensures ready { (facts : facts_type) → result ≡ Poll.Ready facts →
            IsReady token.now facts (cloud_of self.old) (cloud_of self.new) }
        ensures memory { result ≡ Poll.Memory → IsAsBefore (cloud_of self.old) (cloud_of self.new) }
        ensures only { ((facts : facts_type) × (result ≡ Poll.Ready facts)) ⊎ (result ≡ Poll.Memory) }
    {
        match numbered(self.all.trace.allocator(), self.given) {
            Ok(facts) => {
                self.given = self.given.saturating_add(1);
                self.all.tell(token, facts)
            }
            Err(_) => Poll::Memory,
        }
    }
}

// The facts of the resource with this number: its id, and no attribute.
fn numbered(alloc: Global, number: u64) -> Result<Facts, AllocError> {
    let id = format!(in alloc; "box-{}", number)?;
    Ok(Facts {
        id: Text::from_string(id),
        attrs: Properties::new(alloc),
    })
}

impl Provider for NumberingCloud {
    ghost use Rattle.sim_cloud.specs.Sound.{lawful_shown};
    ghost use Rattle.sim_cloud.specs.Simulated.{beside_of};
    ghost use Rattle.example_provider.specs.Numbering.{cloud_of};

    ghost cloud = { cloud_of };

    ghost lawful = { λ c. lawful_shown c.all.held.all (beside_of c.all) c.all.held.fit };

    fn create(&mut self, token: &Token, kind: &Kind, props: &Properties) -> Answer {
        self.all.create(Course::Works, token, kind, props, BUDGET)
    }

    fn update(&mut self, token: &Token, props: &Properties) -> Answer {
        self.all.update(Course::Works, token, props, BUDGET)
    }

    fn delete(&mut self, token: &Token) -> Answer {
        self.all.delete(Course::Works, token, BUDGET)
    }

    fn poll(&mut self, token: &Token) -> Poll {
        if self.all.is_ready(token) || self.all.left(token) > DUE {
            self.all.poll(Course::Works, token, None)
        } else {
            self.number(token)
        }
    }

    fn gone(&mut self, token: &Token) -> Gone {
        self.all.gone(Course::Works, token)
    }

    fn list(&mut self) -> Listed {
        self.all.list(Course::Works)
    }
}
