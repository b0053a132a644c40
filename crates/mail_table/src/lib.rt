//! The mail between engines: letters that wait for one, and the jobs that engines have. `Mails` is what
//! those above see of it, over the list of the waiting letters and that of the jobs; `ListMails` reads the
//! lists from end to end, and `MailTable` finds each letter and job by sorted vectors. Nothing here decides
//! who takes a letter or what a job does next. It answers to `specs/Mail.antt` and `Holders.antt`.
#![tactic(auto)]

mod by_row;
mod job_table;
mod keys;
mod list_mails;
mod mail;
mod mails;
mod ops;
mod run;
mod table;

pub use list_mails::ListMails;
pub use mail::{Job, Letter, Stage};
pub use mails::Mails;
pub use ops::{MailAnswer, MailOp};
pub use run::run_mails;
pub use table::MailTable;
