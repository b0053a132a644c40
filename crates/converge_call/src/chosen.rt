//! What options say, one after another.
ghost use Rattle.std.specs.Prelude.{◌≡◌, ◌≢◌, ◌<◌, ◌↔◌, ℕ, List, None};
ghost use Rattle.std.specs.Prelude.{IfSome, IsNone, IsTrue, MatchOption, decimal, length};
ghost use Rattle.heat_plan.specs.Numbers.{IsNumber};
ghost use Rattle.converge_call.specs.Options.{IsCount, IsPath, IsWithWorkers, IsWithCloud};
ghost use Rattle.converge_call.specs.Options.{Said as said_type, Say, Says, unsaid};
ghost use Rattle.converge_call.specs.Choices.{said_of};

use crate::option::option_in;
use crate::setup::MOST_WORKERS;
use heat_plan::RowNo;
use heat_value::Text;

/// What the options up to here say.
#[derive(Clone, Copy)]
pub struct Chosen<'w> {
    pub workers: Option<u8>,
    pub cloud: Option<&'w str>,
}

/// What all these options say.
pub fn said_by<'w>(options: &'w [Text]) -> Option<Chosen<'w>>
    ensures { MatchOption result ((s : said_type) → ¬ Say options.now unsaid s)
        (λ c. Say options.now unsaid (said_of c)) }
{
    let mut chosen = Chosen {
        workers: None,
        cloud: None,
    };
    let mut rest = options;
    for taken in 0..options.len() {
        if rest.is_empty() {
            return Some(chosen);
        }
        (chosen, rest) = take(chosen, rest)?;
    }
    if rest.is_empty() { Some(chosen) } else { None }
}

// What is said with the option in front, and what stands behind it.
fn take<'w>(before: Chosen<'w>, options: &'w [Text]) -> Option<(Chosen<'w>, &'w [Text])>
    ensures read { MatchOption result
        ((after : said_type) (rest : List (List ℕ)) → ¬ Says options.now rest (said_of before.entry) after)
        (λ r. Says options.now r.1.now (said_of before.entry) (said_of r.0)) }
    ensures less { IfSome result (λ r. length r.1.now < length options.now) }
{
    if let Some((digits, rest)) = option_in(options, "--workers") {
        return Some((with_workers(before, digits)?, rest));
    }
    let (path, rest) = option_in(options, "--cloud")?;
    Some((with_cloud(before, path)?, rest))
}

// Behind a number of workers, which wasn't said before.
fn with_workers<'w>(before: Chosen<'w>, digits: &str) -> Option<Chosen<'w>>
    ensures { MatchOption result
        ((n : ℕ) → IsCount digits.now n → (said_of before.entry).workers ≢ None)
        (λ c. IsWithWorkers digits.now (said_of before.entry) (said_of c)) }
{
    if before.workers.is_some() {
        return None;
    }
    let workers = Some(count_of(digits.as_bytes())?);
    Some(Chosen { workers, ..before })
}

// Behind a cloud file, which wasn't said before.
fn with_cloud<'w>(before: Chosen<'w>, path: &'w str) -> Option<Chosen<'w>>
    ensures { MatchOption result (IsPath path.now → (said_of before.entry).cloud ≢ None)
        (λ c. IsWithCloud path.now (said_of before.entry) (said_of c)) }
{
    if before.cloud.is_some() || !is_path(path) {
        return None;
    }
    let cloud = Some(path);
    Some(Chosen { cloud, ..before })
}

// Whether this may be a file's path.
fn is_path(word: &str) -> bool
    ensures { IsTrue result ↔ IsPath word.now }
{
    match word.as_bytes().first() {
        Some(byte) => *byte != b'-',
        None => false,
    }
}

// The count of workers that is written so.
fn count_of(digits: &[u8]) -> Option<u8>
    ensures { MatchOption result ((n : ℕ) → ¬ IsCount digits.now n) (λ n. IsCount digits.now n) }
{
    let count = number(digits)?;
    if count > u64::from(MOST_WORKERS) {
        return None;
    }
    u8::try_from(count).ok()
}

// The number that is written so; all sorts of drawn numbers are written alike.
fn number(digits: &[u8]) -> Option<u64>
    ensures some { IfSome result (λ n. IsNumber n × (decimal n ≡ digits.now)) }
    ensures none { IsNone result → (n : ℕ) → IsNumber n → decimal n ≢ digits.now }
{
    match RowNo::read(digits) {
        Some(no) => Some(no.get()),
        None => None,
    }
}
