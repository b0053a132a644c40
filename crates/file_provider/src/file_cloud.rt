//! A cloud of files: an inventory with a file behind each resource, which says it in two lines. Each call that changes a
//! resource first writes its file. A write that fails is answered Failed, and the inventory stays.
use crate::card::{Card, after};
use crate::facts::facts_of;
use crate::folder::Folder;
use crate::rewrite::Rewrite;
use heat_plan::{Facts, Kind, Properties, Request, Token};
use heat_value::{Seq, TryCopy};
use provider::{Answer, Gone, Listed, Poll, Provider};
use sim_cloud::{Course, Holdings, Inventory};
use std::alloc::{AllocError, Global};

// How many polls may be answered NotYet: a file is there at once.
const NONE_LEFT: u8 = 0;

/// The resources, and the folder of their files.
#[derive(Drop)]
pub struct FileCloud {
    all: Inventory,
    folder: Folder,
}

impl FileCloud {
    ghost use Rattle.std.specs.Prelude.{◌≡◌, ◌⊎◌, IfOk};
    ghost use Rattle.heat_plan.specs.declared.facts.Facts.{Facts as facts_type};
    ghost use Rattle.heat_plan.specs.declared.calls.Request.TheVariants as ask;
    ghost use Rattle.provider.specs.Cloud.{IsAlive};
    ghost use Rattle.provider.specs.Changes.{IsAsBefore};
    ghost use Rattle.provider.specs.Calls.{IsReady, HasFailed};
    ghost use Rattle.sim_cloud.specs.Holding.{whats};
    ghost use Rattle.sim_cloud.specs.Shown.{IsUnready};
    ghost use Rattle.file_provider.specs.Shows.{cloud_of};

    /// A cloud with the resources that were read from the folder. It has no quota.
    pub fn new(folder: Folder, held: Holdings) -> FileCloud
        ensures { (cloud_of result).alive ≡ whats held.all }
    {
        let alloc = folder.rt.alloc();
        FileCloud {
            all: Inventory::holding(alloc, held, Seq::new(alloc)),
            folder,
        }
    }

    // Changes the token's file as the request asks, and says how the inventory's call then goes.
    fn rewrite(&self, token: &Token, request: Request) -> Result<(Rewrite, Course), AllocError> {
        let before = self.card(token)?;
        let after = after(&request, self.card(token)?)?;
        let rewrite = Rewrite::new(self.folder.rt.alloc(), token, &before, &after)?;
        let course = rewrite.make(&self.folder)?;
        Ok((rewrite, course))
    }

    // The card of the token's resource; none where it has none.
    fn card(&self, token: &Token) -> Result<Option<Card>, AllocError> {
        match self.all.held.place_of(token) {
            Some(at) => Ok(Some(Card::of(self.all.held.get(at))?)),
            None => Ok(None),
        }
    }

    // The same for a create.
    fn begin(
        &self,
        token: &Token,
        kind: &Kind,
        props: &Properties,
    ) -> Result<(Rewrite, Course), AllocError> {
        self.rewrite(token, Request::Create(kind.name.copy()?, props.copy()?))
    }

    // The same for an update.
    fn renew(&self, token: &Token, props: &Properties) -> Result<(Rewrite, Course), AllocError> {
        self.rewrite(token, Request::Update(props.copy()?))
    }

    // Answers Ready for a resource that isn't, with the facts of its card.
    fn tell(&mut self, token: &Token) -> Poll
        requires { IsUnready (cloud_of self.old) token.now }
        ensures ready { (facts : facts_type) → result ≡ Poll.Ready facts →
            IsReady token.now facts (cloud_of self.old) (cloud_of self.new) }
        ensures failed { result ≡ Poll.Failed →
            HasFailed token.now ask.Poll (cloud_of self.old) (cloud_of self.new) }
        ensures memory { result ≡ Poll.Memory → IsAsBefore (cloud_of self.old) (cloud_of self.new) }
        ensures only { ((facts : facts_type) × (result ≡ Poll.Ready facts))
            ⊎ ((result ≡ Poll.Failed) ⊎ (result ≡ Poll.Memory)) }
    {
        let Ok(facts) = self.facts(token) else {
            return Poll::Memory;
        };
        let Ok((rewrite, course)) = self.rewrite(token, Request::Poll) else {
            return Poll::Memory;
        };
        match course {
            Course::Works => self.told(token, facts, &rewrite),
            Course::Fails | Course::FailsLate => self.all.poll(Course::Fails, token, None),
        }
    }

    // Answers Ready, its file being changed already.
    fn told(&mut self, token: &Token, facts: Facts, rewrite: &Rewrite) -> Poll
        requires { IsUnready (cloud_of self.old) token.now }
        ensures ready { (facts : facts_type) → result ≡ Poll.Ready facts →
            IsReady token.now facts (cloud_of self.old) (cloud_of self.new) }
        ensures memory { result ≡ Poll.Memory → IsAsBefore (cloud_of self.old) (cloud_of self.new) }
        ensures only { ((facts : facts_type) × (result ≡ Poll.Ready facts)) ⊎ (result ≡ Poll.Memory) }
    {
        let polled = self.all.tell(token, facts);
        if let Poll::Memory = &polled {
            rewrite.take_back(&self.folder);
        }
        polled
    }

    // The facts of an alive token's resource.
    fn facts(&self, token: &Token) -> Result<Facts, AllocError>
        requires { IsAlive (cloud_of self.now) token.now }
    {
        match self.all.held.place_of(token) {
            Some(at) => facts_of(
                self.folder.rt.alloc(),
                token,
                &self.all.held.get(at).what.props,
            ),
            None => unreachable!(),
        }
    }
}

impl Provider for FileCloud {
    ghost use Rattle.sim_cloud.specs.Sound.{lawful_shown};
    ghost use Rattle.sim_cloud.specs.Simulated.{beside_of};
    ghost use Rattle.file_provider.specs.Shows.{cloud_of};

    ghost cloud = { cloud_of };

    ghost lawful = { λ c. lawful_shown c.all.held.all (beside_of c.all) c.all.held.fit };

    fn create(&mut self, token: &Token, kind: &Kind, props: &Properties) -> Answer {
        let Ok((rewrite, course)) = self.begin(token, kind, props) else {
            return Answer::Memory;
        };
        let answer = self.all.create(course, token, kind, props, NONE_LEFT);
        if answer == Answer::Memory {
            rewrite.take_back(&self.folder);
        }
        answer
    }

    fn update(&mut self, token: &Token, props: &Properties) -> Answer {
        let Ok((rewrite, course)) = self.renew(token, props) else {
            return Answer::Memory;
        };
        let answer = self.all.update(course, token, props, NONE_LEFT);
        if answer == Answer::Memory {
            rewrite.take_back(&self.folder);
        }
        answer
    }

    fn delete(&mut self, token: &Token) -> Answer {
        let Ok((rewrite, course)) = self.rewrite(token, Request::Delete) else {
            return Answer::Memory;
        };
        let answer = self.all.delete(course, token, NONE_LEFT);
        if answer == Answer::Memory {
            rewrite.take_back(&self.folder);
        }
        answer
    }

    fn poll(&mut self, token: &Token) -> Poll {
        if self.all.is_ready(token) {
            self.all.poll(Course::Works, token, None)
        } else {
            self.tell(token)
        }
    }

    fn gone(&mut self, token: &Token) -> Gone {
        let Ok((rewrite, course)) = self.rewrite(token, Request::Gone) else {
            return Gone::Memory;
        };
        let gone = self.all.gone(course, token);
        if gone == Gone::Memory {
            rewrite.take_back(&self.folder);
        }
        gone
    }

    fn list(&mut self) -> Listed {
        self.all.list(Course::Works)
    }
}
