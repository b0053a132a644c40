//! The mail, as those above it use it.
ghost use Rattle.std.specs.Prelude.{◌≡◌, ◌<◌, ◌≤◌, ◌^◌, ◌⊎◌, ◌↔◌, IsOk, IfOk, IfErr, OnOk, OnErr, Err, option_map};
ghost use Rattle.heat_plan.specs.declared.refusal.Refusal.TheVariants.{Worn, Memory};
ghost use Rattle.mail_table.specs.Mails.{letter_at, job_at};
ghost use Rattle.mail_table.specs.Mail.{Mailbox, with_letter, without_letter, with_job, without_job};
ghost use Rattle.mail_table.specs.Mail.{with_sent, with_taken, IsNext, KeepsRoom};
ghost use Rattle.mail_table.specs.Holders.{IsFirst, IsHolder};

use crate::{Job, Letter};
use heat_plan::{EngineNo, LetterNo, Refusal, RowNo, StackName, TravNo};
use std::alloc::AllocError;

/// Waiting letters and jobs, each list in the order in which its keys came, and the next letter's
/// number.
pub trait Mails {
    /// The mail, and how many more letters and jobs fit with no memory wanted.
    ghost content: { Self → Mailbox };

    /// The waiting letters.
    fn letters(&self) -> &[Letter]
        ensures { result.now ≡ (content self.now).mail.letters };

    /// The jobs.
    fn jobs(&self) -> &[Job]
        ensures { result.now ≡ (content self.now).mail.jobs };

    /// The next letter's number; at 2^62 numbers are worn out.
    fn next_no(&self) -> u64
        ensures value { result ≡ (content self.now).mail.next }
        ensures range { IsNext result };

    /// The waiting letter of this number; none where none waits under it.
    fn letter(&self, no: LetterNo) -> Option<&Letter>
        ensures { option_map (λ l. l.now) result ≡ letter_at (content self.now).mail.letters no };

    /// The waiting letter of the lowest number.
    fn first(&self) -> Option<&Letter>
        ensures { IsFirst (content self.now).mail.letters (option_map (λ l. l.now) result) };

    /// The engine's job; none where it has none.
    fn job_of(&self, engine: EngineNo) -> Option<&Job>
        ensures { option_map (λ j. j.now) result ≡ job_at (content self.now).mail.jobs engine };

    /// The engine whose job is at the row, of several the lowest.
    fn holder(&self, stack: &StackName, row: RowNo) -> Option<EngineNo>
        ensures { IsHolder (content self.now).mail.jobs stack.now row result };

    /// Makes room for so many more letters and jobs.
    fn reserve(&mut self, letters: usize, jobs: usize) -> Result<(), AllocError>
        ensures same { (content self.new).mail ≡ (content self.old).mail }
        ensures room { OnOk result ((letters ≤ (content self.new).letter_room) × (jobs ≤ (content self.new).job_room)) }
        ensures keeps { KeepsRoom 0 0 (content self.old) (content self.new) };

    /// Sends a letter under the next number; within the room it takes no memory.
    fn send(&mut self, stack: StackName, trav: TravNo, node: u32) -> Result<LetterNo, Refusal>
        ensures no { IfOk result (λ no. (no ≡ (content self.old).mail.next) × (no < 2 ^ 62)) }
        ensures ok { OnOk result ((content self.new).mail ≡ with_sent stack trav node (content self.old).mail) }
        ensures worn { (result ≡ Err Worn) ↔ ((content self.old).mail.next ≡ 2 ^ 62) }
        ensures cause { IfErr result (λ e. (e ≡ Worn) ⊎ (e ≡ Memory)) }
        ensures same { OnErr result ((content self.new).mail ≡ (content self.old).mail) }
        ensures within { 0 < (content self.old).letter_room → ¬ (result ≡ Err Memory) }
        ensures keeps { KeepsRoom 1 0 (content self.old) (content self.new) };

    /// Takes the waiting letter of the lowest number out.
    fn take_first(&mut self) -> Option<Letter>
        ensures first { IsFirst (content self.old).mail.letters result }
        ensures rest { (content self.new).mail ≡ with_taken result (content self.old).mail }
        ensures keeps { KeepsRoom 0 0 (content self.old) (content self.new) };

    /// Writes a job over its engine's, or behind all others; within the room it takes no memory.
    fn hold(&mut self, job: Job) -> Result<(), AllocError>
        ensures ok { OnOk result ((content self.new).mail ≡ with_job job (content self.old).mail) }
        ensures same { OnErr result ((content self.new).mail ≡ (content self.old).mail) }
        ensures within { 0 < (content self.old).job_room → IsOk result }
        ensures keeps { KeepsRoom 0 1 (content self.old) (content self.new) };

    /// Ends the engine's job.
    fn end(&mut self, engine: EngineNo)
        ensures rest { (content self.new).mail ≡ without_job engine (content self.old).mail }
        ensures keeps { KeepsRoom 0 0 (content self.old) (content self.new) };

    /// Writes a letter over the one of its number, or behind all others; within the room it takes no
    /// memory.
    fn insert(&mut self, letter: Letter) -> Result<(), AllocError>
        ensures ok { OnOk result ((content self.new).mail ≡ with_letter letter (content self.old).mail) }
        ensures same { OnErr result ((content self.new).mail ≡ (content self.old).mail) }
        ensures within { 0 < (content self.old).letter_room → IsOk result }
        ensures keeps { KeepsRoom 1 0 (content self.old) (content self.new) };

    /// Drops the letter of this number.
    fn remove(&mut self, no: LetterNo)
        ensures rest { (content self.new).mail ≡ without_letter no (content self.old).mail }
        ensures keeps { KeepsRoom 0 0 (content self.old) (content self.new) };

    /// Sets the next letter's number.
    fn set_next(&mut self, next: u64)
        requires { IsNext next }
        ensures mail { (content self.new).mail ≡ record (content self.old).mail { next = next } }
        ensures keeps { KeepsRoom 0 0 (content self.old) (content self.new) };
}
