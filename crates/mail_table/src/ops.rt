//! What may be asked of the mail, and what it answers.

use crate::{Job, Letter};
use heat_plan::{EngineNo, LetterNo, RowNo, Seq, StackName, TravNo};

/// One call of the mail.
#[derive(Debug)]
pub enum MailOp {
    Send(StackName, TravNo, u32),
    TakeFirst,
    Hold(Job),
    End(EngineNo),
    JobOf(EngineNo),
    Holder(StackName, RowNo),
    Reserve(usize, usize),
    Letters,
    Jobs,
    NextNo,
    Insert(Letter),
    Remove(LetterNo),
    SetNext(u64),
}

impl Drop for MailOp {
    fn drop(self) {
        match self {
            MailOp::Send(_, _, _) => {}
            MailOp::TakeFirst => {}
            MailOp::Hold(_) => {}
            MailOp::End(_) => {}
            MailOp::JobOf(_) => {}
            MailOp::Holder(_, _) => {}
            MailOp::Reserve(_, _) => {}
            MailOp::Letters => {}
            MailOp::Jobs => {}
            MailOp::NextNo => {}
            MailOp::Insert(_) => {}
            MailOp::Remove(_) => {}
            MailOp::SetNext(_) => {}
        }
    }
}

/// What a call gives, copied; `Done` where it gives nothing, and `Barred` where its condition doesn't hold
/// and it isn't made.
#[derive(Debug)]
pub enum MailAnswer {
    Sent(LetterNo),
    /// The next letter's number is 2^62: none was sent.
    Worn,
    Taken(Option<Letter>),
    Job(Option<Job>),
    Holder(Option<EngineNo>),
    Letters(Seq<Letter>),
    Jobs(Seq<Job>),
    NextNo(u64),
    Done,
    Barred,
}

impl Drop for MailAnswer {
    fn drop(self) {
        match self {
            MailAnswer::Sent(_) => {}
            MailAnswer::Worn => {}
            MailAnswer::Taken(_) => {}
            MailAnswer::Job(_) => {}
            MailAnswer::Holder(_) => {}
            MailAnswer::Letters(_) => {}
            MailAnswer::Jobs(_) => {}
            MailAnswer::NextNo(_) => {}
            MailAnswer::Done => {}
            MailAnswer::Barred => {}
        }
    }
}
