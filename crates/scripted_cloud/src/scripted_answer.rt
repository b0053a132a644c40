//! How the cloud's next call goes.
ghost use Rattle.std.specs.Prelude.{◌≡◌, ◌≤◌, min, option_map, slice_get};
ghost use Rattle.scripted_cloud.specs.ScriptedAnswers.{course_of, polls_of, code_of};

use heat_value::{Seq, Text};
use sim_cloud::Course;

/// How one call goes. A poll or a question answers NotYet wherever polls are left, a create Quota
/// wherever its quota is reached, whatever is scripted. More than 64 polls leave 64.
#[derive(Debug, Drop)]
pub enum ScriptedAnswer {
    /// Begun, with so many polls left; else Ready, Gone or the list.
    Works(u8),
    /// Failed with nothing done.
    Fails,
    /// Failed with its effect done, so many polls left; a poll, a question or a listing has none.
    FailsLate(u8),
    /// Broken with this code; at a call that isn't a poll it works with no polls left.
    Breaks(Text),
}

/// The course of this answer; past the last the cloud works.
pub fn course_at(answers: &Seq<ScriptedAnswer>, next: usize) -> Course
    ensures { result ≡ course_of (slice_get answers.now next) }
{
    match answers.as_slice().get(next) {
        Some(ScriptedAnswer::Fails) => Course::Fails,
        Some(ScriptedAnswer::FailsLate(_)) => Course::FailsLate,
        Some(ScriptedAnswer::Works(_)) => Course::Works,
        Some(ScriptedAnswer::Breaks(_)) => Course::Works,
        None => Course::Works,
    }
}

/// How many polls this answer leaves.
pub fn polls_at(answers: &Seq<ScriptedAnswer>, next: usize) -> u8
    ensures polls { result ≡ polls_of (slice_get answers.now next) }
    ensures few { result ≤ 64 }
{
    match answers.as_slice().get(next) {
        Some(ScriptedAnswer::Works(polls)) => at_most_64(*polls),
        Some(ScriptedAnswer::FailsLate(polls)) => at_most_64(*polls),
        Some(ScriptedAnswer::Fails) => 0,
        Some(ScriptedAnswer::Breaks(_)) => 0,
        None => 0,
    }
}

// As many polls as a provider may have left.
fn at_most_64(polls: u8) -> u8
    ensures { result ≡ min polls 64 }
{
    if polls < 64 { polls } else { 64 }
}

/// The code of this answer.
pub fn code_at(answers: &Seq<ScriptedAnswer>, next: usize) -> Option<&Text>
    ensures { option_map (λ c. c.now) result ≡ code_of (slice_get answers.now next) }
{
    match answers.as_slice().get(next) {
        Some(ScriptedAnswer::Breaks(code)) => Some(code),
        _ => None,
    }
}
