//! Each setting of the simulated cloud at each call of a small script: list, create, poll, update, poll,
//! delete, two questions, list. Each answer is a letter; a poll that is ready tells the size.
use crate::fixtures::sized;
use heat_plan::{Kind, Properties, Token};
use heat_value::{Text, Value};
use provider::{Answer, Gone, Listed, Poll, Provider};
use sample_plans::boxes;
use scripted_cloud::{change, look, make, send, wait};
use sim_cloud::{KindDelay, KindQuota, NameCode, Settings, SimCloud};
use std::alloc::{AllocError, Global};
use std::test::Fail;

fn token(alloc: Global) -> Result<Token, Fail> {
    Ok(Token::read(alloc, b"s/a/1")?.ok_or("a token")?)
}

fn size_letter(size: Option<&Value>) -> &'static str {
    match size {
        Some(Value::Whole(1)) => "1",
        Some(Value::Whole(2)) => "2",
        _ => "?",
    }
}

fn poll_letter(size: &Text, poll: Poll) -> &'static str {
    match poll {
        Poll::Ready(facts) => size_letter(facts.attrs.as_props().get(size)),
        Poll::Broken(_) => "x",
        Poll::NotYet => "n",
        Poll::Failed => "f",
        Poll::Memory => "m",
    }
}

fn answer_letter(answer: Answer) -> &'static str {
    match answer {
        Answer::Begun => "b",
        Answer::Quota => "q",
        Answer::Failed => "f",
        Answer::Memory => "m",
    }
}

fn gone_letter(gone: Gone) -> &'static str {
    match gone {
        Gone::Gone => "g",
        Gone::NotYet => "n",
        Gone::Failed => "f",
        Gone::Memory => "m",
    }
}

fn list_letter(listed: Listed) -> &'static str {
    match listed {
        Listed::Got(all) => if all.is_empty() { "0" } else { "1" },
        Listed::Failed => "f",
        Listed::Memory => "m",
    }
}

// What the script asks for, and the attribute that polls tell.
struct Script {
    token: Token,
    kind: Kind,
    small: Properties,
    big: Properties,
    size: Text,
}

impl Drop for Script {
    fn drop(self) {
        let Script {
            token: _,
            kind: _,
            small: _,
            big: _,
            size: _,
        } = self;
    }
}

fn example(alloc: Global) -> Result<Script, Fail> {
    let token = token(alloc)?;
    with_token(alloc, token)
}

fn with_token(alloc: Global, token: Token) -> Result<Script, Fail> {
    let kind = boxes(alloc, &["size"], &[])?;
    let small = sized(alloc, 1)?;
    let big = sized(alloc, 2)?;
    let size = Text::from_str(alloc, "size")?;
    Ok(Script {
        token,
        kind,
        small,
        big,
        size,
    })
}

// The letters from the create to the second poll, or of a create that isn't begun.
#[derive(Clone, Copy)]
struct Life {
    begun: bool,
    create: &'static str,
    first: &'static str,
    update: &'static str,
    second: &'static str,
}

fn live(cloud: &mut SimCloud, script: &Script) -> Life {
    if make(cloud, &script.token, &script.kind, &script.small) {
        let first = look(cloud, &script.token);
        let update = change(cloud, &script.token, &script.big);
        let second = look(cloud, &script.token);
        Life {
            begun: true,
            create: "b",
            first: poll_letter(&script.size, first),
            update: answer_letter(update),
            second: poll_letter(&script.size, second),
        }
    } else {
        Life {
            begun: false,
            create: "-",
            first: "",
            update: "",
            second: "",
        }
    }
}

// The letters of the delete and of two questions; of a delete that isn't begun; none behind a create that
// isn't begun.
fn leave(
    cloud: &mut SimCloud,
    script: &Script,
    begun: bool,
) -> (&'static str, &'static str, &'static str) {
    if !begun {
        ("", "", "")
    } else if send(cloud, &script.token) {
        let first = wait(cloud, &script.token);
        let second = wait(cloud, &script.token);
        ("d", gone_letter(first), gone_letter(second))
    } else {
        ("-", "", "")
    }
}

// The letters of the whole script.
fn run(alloc: Global, cloud: &mut SimCloud, script: &Script) -> Result<String, AllocError> {
    let before = list_letter(cloud.list());
    let life = live(cloud, script);
    let (delete, first, second) = leave(cloud, script, life.begun);
    let after = list_letter(cloud.list());
    format!(in alloc;
        "{}{}{}{}{}{}{}{}{}",
        before, life.create, life.first, life.update, life.second, delete, first, second, after
    )
}

// Whether the script's answers are these letters.
fn answers(alloc: Global, mut cloud: SimCloud, wanted: &str) -> Result<bool, Fail> {
    let script = example(alloc)?;
    let told = run(alloc, &mut cloud, &script)?;
    Ok(told.as_str() == wanted)
}

fn fails_at(alloc: Global, call: u64, wanted: &str) -> Result<bool, Fail> {
    let mut settings = Settings::empty(alloc);
    settings.faults.push(call)?;
    answers(alloc, SimCloud::new(settings)?, wanted)
}

fn fails_late_at(alloc: Global, call: u64, wanted: &str) -> Result<bool, Fail> {
    let mut settings = Settings::empty(alloc);
    settings.late.push(call)?;
    answers(alloc, SimCloud::new(settings)?, wanted)
}

fn fails_twice_at(alloc: Global, call: u64, wanted: &str) -> Result<bool, Fail> {
    let mut settings = Settings::empty(alloc);
    settings.faults.push(call)?;
    settings.late.push(call)?;
    answers(alloc, SimCloud::new(settings)?, wanted)
}

fn with_quota(alloc: Global, most: u32, wanted: &str) -> Result<bool, Fail> {
    let mut settings = Settings::empty(alloc);
    let kind = Text::from_str(alloc, "Test::Box")?;
    settings.quotas.push(KindQuota { kind, most })?;
    settings.late.push(2 + most as u64)?;
    answers(alloc, SimCloud::new(settings)?, wanted)
}

fn with_delay(alloc: Global, name: &str, wanted: &str) -> Result<bool, Fail> {
    let mut settings = Settings::empty(alloc);
    let kind = Text::from_str(alloc, name)?;
    settings.delays.push(KindDelay { kind, polls: 1 })?;
    answers(alloc, SimCloud::new(settings)?, wanted)
}

fn with_code(alloc: Global, name: &str, wanted: &str) -> Result<bool, Fail> {
    let mut settings = Settings::empty(alloc);
    let name = Text::from_str(alloc, name)?;
    let code = Text::from_str(alloc, "no_image")?;
    settings.broken.push(NameCode { name, code })?;
    answers(alloc, SimCloud::new(settings)?, wanted)
}

#[test]
fn a_listed_call_fails_with_nothing_done(rt: HostRuntime) -> Result<(), Fail> {
    let alloc = rt.alloc();
    assert!(rt; fails_at(alloc, 10, "0b1b2dgg0")?);
    assert!(rt; fails_at(alloc, 1, "fb1b2dgg0")?);
    assert!(rt; fails_at(alloc, 2, "0-0")?);
    assert!(rt; fails_at(alloc, 3, "0bfb2dgg0")?);
    assert!(rt; fails_at(alloc, 4, "0b1f1dgg0")?);
    assert!(rt; fails_at(alloc, 5, "0b1bfdgg0")?);
    assert!(rt; fails_at(alloc, 6, "0b1b2-1")?);
    assert!(rt; fails_at(alloc, 7, "0b1b2dfg0")?);
    assert!(rt; fails_at(alloc, 8, "0b1b2dgf0")?);
    assert!(rt; fails_at(alloc, 9, "0b1b2dggf")?);
    Ok(())
}

#[test]
fn a_call_listed_as_late_has_its_effect(rt: HostRuntime) -> Result<(), Fail> {
    let alloc = rt.alloc();
    assert!(rt; fails_late_at(alloc, 1, "fb1b2dgg0")?);
    assert!(rt; fails_late_at(alloc, 2, "0-1")?);
    assert!(rt; fails_late_at(alloc, 3, "0bfb2dgg0")?);
    assert!(rt; fails_late_at(alloc, 4, "0b1f2dgg0")?);
    assert!(rt; fails_late_at(alloc, 5, "0b1bfdgg0")?);
    assert!(rt; fails_late_at(alloc, 6, "0b1b2-1")?);
    assert!(rt; fails_late_at(alloc, 7, "0b1b2dfg0")?);
    assert!(rt; fails_late_at(alloc, 9, "0b1b2dggf")?);
    assert!(rt; fails_twice_at(alloc, 2, "0-0")?);
    Ok(())
}

#[test]
fn quotas_delays_and_codes_count(rt: HostRuntime) -> Result<(), Fail> {
    let alloc = rt.alloc();
    assert!(rt; with_quota(alloc, 0, "0-0")?);
    assert!(rt; with_quota(alloc, 1, "0bfb2dgg0")?);
    assert!(rt; with_delay(alloc, "Test::Box", "0bnbndng0")?);
    assert!(rt; with_delay(alloc, "Test::Bag", "0b1b2dgg0")?);
    assert!(rt; with_code(alloc, "a", "0bxbxdgg0")?);
    assert!(rt; with_code(alloc, "b", "0b1b2dgg0")?);
    Ok(())
}
