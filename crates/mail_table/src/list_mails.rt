//! The plain form of the mail: lists that are read from the first letter or job to the last.
ghost use Rattle.std.specs.Prelude.{◌≡◌, ◌↔◌, [], IsTrue};
ghost use Rattle.mail_table.specs.Holders.{IsAt, IsHolder, IsLowestNo, lesser};

use crate::mails::Mails;
use crate::{Job, Letter};
use heat_plan::{EngineNo, LetterNo, Refusal, RowNo, StackName, TravNo};
use keyed_table::ListTable;
use std::alloc::{AllocError, Global};
use std::marker::Model;

/// Letters and jobs in lists.
#[derive(Debug)]
pub struct ListMails {
    letters: ListTable<Letter>,
    jobs: ListTable<Job>,
    next: u64,
}

impl Drop for ListMails {
    fn drop(self) {
        let ListMails {
            letters: _,
            jobs: _,
            next: _,
        } = self;
    }
}

impl Model for ListMails {
    ghost use Rattle.mail_table.specs.Mail.{Mailbox, IsNext};

    ghost Value = { Mailbox };

    ghost view = { λ m. record {
      mail = record { letters = m.letters.items; jobs = m.jobs.items; next = m.next };
      letter_room = m.letters.spare;
      job_room = m.jobs.spare;
    } };

    ghost invariant = { λ m. IsNext m.next };
}

impl ListMails {
    /// No letter and no job; the first letter gets the number 1.
    pub fn new(alloc: Global) -> ListMails
        ensures { result.mail ≡ record { letters = []; jobs = []; next = 1 } }
    {
        ListMails {
            letters: ListTable::new(alloc),
            jobs: ListTable::new(alloc),
            next: 1,
        }
    }

    // The lowest number of a waiting letter.
    fn lowest(&self) -> Option<LetterNo>
        ensures { IsLowestNo self.now.mail.letters result }
    {
        let mut lowest: Option<LetterNo> = None;
        for letter in self.letters.as_slice() {
            lowest = Some(lesser_letter(lowest, letter.no));
        }
        lowest
    }

    // Whether the engine's job is at the row of the stack.
    fn is_at(&self, engine: EngineNo, stack: &StackName, row: RowNo) -> bool
        ensures { IsTrue result ↔ IsAt self.now.mail.jobs stack.now row engine }
    {
        match self.jobs.get(&engine) {
            Some(job) => job.letter.stack == *stack && job.row == row,
            None => false,
        }
    }
}

// The lesser of two numbers, of which the first may be missing.
fn lesser_letter(least: Option<LetterNo>, no: LetterNo) -> LetterNo
    ensures { result ≡ lesser least no }
{
    match least {
        Some(best) if best < no => best,
        _ => no,
    }
}

// The lesser of two numbers, of which the first may be missing.
fn lesser_engine(least: Option<EngineNo>, no: EngineNo) -> EngineNo
    ensures { result ≡ lesser least no }
{
    match least {
        Some(best) if best < no => best,
        _ => no,
    }
}

impl Mails for ListMails {
    ghost content = { λ m. m };

    fn letters(&self) -> &[Letter] {
        self.letters.as_slice()
    }

    fn jobs(&self) -> &[Job] {
        self.jobs.as_slice()
    }

    fn next_no(&self) -> u64 {
        self.next
    }

    fn letter(&self, no: LetterNo) -> Option<&Letter> {
        self.letters.get(&no)
    }

    fn first(&self) -> Option<&Letter> {
        match self.lowest() {
            Some(no) => self.letters.get(&no),
            None => None,
        }
    }

    fn job_of(&self, engine: EngineNo) -> Option<&Job> {
        self.jobs.get(&engine)
    }

    fn holder(&self, stack: &StackName, row: RowNo) -> Option<EngineNo> {
        let mut holder: Option<EngineNo> = None;
        for job in self.jobs.as_slice() {
            if self.is_at(job.engine, stack, row) {
                holder = Some(lesser_engine(holder, job.engine));
            }
        }
        holder
    }

    fn reserve(&mut self, letters: usize, jobs: usize) -> Result<(), AllocError> {
        self.letters.reserve(letters)?;
        self.jobs.reserve(jobs)
    }

    fn send(&mut self, stack: StackName, trav: TravNo, node: u32) -> Result<LetterNo, Refusal> {
        let Some(no) = LetterNo::new(self.next) else {
            return Err(Refusal::Worn);
        };
        self.insert(Letter {
            no,
            stack,
            trav,
            node,
        })?;
        self.next += 1;
        Ok(no)
    }

    fn take_first(&mut self) -> Option<Letter> {
        match self.lowest() {
            Some(no) => self.letters.take(&no),
            None => None,
        }
    }

    fn hold(&mut self, job: Job) -> Result<(), AllocError> {
        self.jobs.reserve(1)?;
        self.jobs.put(job);
        Ok(())
    }

    fn end(&mut self, engine: EngineNo) {
        self.jobs.cut(&engine);
    }

    fn insert(&mut self, letter: Letter) -> Result<(), AllocError> {
        self.letters.reserve(1)?;
        self.letters.put(letter);
        Ok(())
    }

    fn remove(&mut self, no: LetterNo) {
        self.letters.cut(&no);
    }

    fn set_next(&mut self, next: u64) {
        self.next = next;
    }
}
