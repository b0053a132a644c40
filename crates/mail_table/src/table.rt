//! The indexed form of the mail.
ghost use Rattle.std.specs.Prelude.{◌≡◌, ◌<◌, [], IfOk};
ghost use Rattle.mail_table.specs.Mail.{with_letter, with_job, KeepsRoom};

use crate::job_table::JobTable;
use crate::mails::Mails;
use crate::{Job, Letter};
use heat_plan::{EngineNo, LetterNo, Refusal, RowNo, StackName, TravNo};
use keyed_table::Table;
use std::alloc::{AllocError, Global};
use std::marker::Model;

/// Letters found by number, and jobs found by engine and by row and stack.
#[derive(Debug)]
pub struct MailTable {
    letters: Table<Letter>,
    jobs: JobTable,
    next: u64,
}

impl Drop for MailTable {
    fn drop(self) {
        let MailTable {
            letters: _,
            jobs: _,
            next: _,
        } = self;
    }
}

impl Model for MailTable {
    ghost use Rattle.mail_table.specs.Mail.{Mailbox, IsNext};

    ghost Value = { Mailbox };

    ghost view = { λ m. record {
      mail = record { letters = m.letters.items; jobs = m.jobs.items; next = m.next };
      letter_room = m.letters.spare;
      job_room = m.jobs.spare;
    } };

    ghost invariant = { λ m. IsNext m.next };
}

impl MailTable {
    /// No letter and no job; the first letter gets the number 1.
    pub fn new(alloc: Global) -> MailTable
        ensures { result.mail ≡ record { letters = []; jobs = []; next = 1 } }
    {
        MailTable {
            letters: Table::new(alloc),
            jobs: JobTable::new(alloc),
            next: 1,
        }
    }

    /// The same mail, with room of its own.
    pub fn copy(&self) -> Result<MailTable, AllocError>
        ensures { IfOk result (λ copy. copy.mail ≡ self.now.mail) }
    {
        Ok(MailTable {
            letters: self.letters.copy()?,
            jobs: self.jobs.copy()?,
            next: self.next,
        })
    }

    /// Writes a letter over the one of its number, or behind all others, within the room.
    pub fn put_letter(&mut self, letter: Letter)
        requires { 0 < self.old.letter_room }
        ensures mail { self.new.mail ≡ with_letter letter self.old.mail }
        ensures keeps { KeepsRoom 1 0 self.old self.new }
    {
        self.letters.put(letter);
    }

    /// Writes a job over its engine's, or behind all others, within the room.
    pub fn put_job(&mut self, job: Job)
        requires { 0 < self.old.job_room }
        ensures mail { self.new.mail ≡ with_job job self.old.mail }
        ensures keeps { KeepsRoom 0 1 self.old self.new }
    {
        self.jobs.put(job);
    }
}

impl Mails for MailTable {
    ghost content = { λ m. m };

    fn letters(&self) -> &[Letter] {
        self.letters.as_slice()
    }

    fn jobs(&self) -> &[Job] {
        self.jobs.as_slice()
    }

    fn next_no(&self) -> u64 {
        self.next
    }

    fn letter(&self, no: LetterNo) -> Option<&Letter> {
        self.letters.get(&no)
    }

    fn first(&self) -> Option<&Letter> {
        self.letters.first()
    }

    fn job_of(&self, engine: EngineNo) -> Option<&Job> {
        self.jobs.get(engine)
    }

    fn holder(&self, stack: &StackName, row: RowNo) -> Option<EngineNo> {
        self.jobs.holder(stack, row)
    }

    fn reserve(&mut self, letters: usize, jobs: usize) -> Result<(), AllocError> {
        self.letters.reserve(letters)?;
        self.jobs.reserve(jobs)
    }

    fn send(&mut self, stack: StackName, trav: TravNo, node: u32) -> Result<LetterNo, Refusal> {
        let Some(no) = LetterNo::new(self.next) else {
            return Err(Refusal::Worn);
        };
        self.insert(Letter {
            no,
            stack,
            trav,
            node,
        })?;
        self.next += 1;
        Ok(no)
    }

    fn take_first(&mut self) -> Option<Letter> {
        match self.letters.first() {
            Some(letter) => {
                let no = letter.no;
                self.letters.take(&no)
            }
            None => None,
        }
    }

    fn hold(&mut self, job: Job) -> Result<(), AllocError> {
        self.jobs.reserve(1)?;
        self.jobs.put(job);
        Ok(())
    }

    fn end(&mut self, engine: EngineNo) {
        self.jobs.cut(engine);
    }

    fn insert(&mut self, letter: Letter) -> Result<(), AllocError> {
        self.letters.reserve(1)?;
        self.letters.put(letter);
        Ok(())
    }

    fn remove(&mut self, no: LetterNo) {
        self.letters.cut(&no);
    }

    fn set_next(&mut self, next: u64) {
        self.next = next;
    }
}
