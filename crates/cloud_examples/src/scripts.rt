//! Each call and each answer once, at the simulated cloud and at the scripted one.
use crate::fixtures::sized;
use heat_plan::{Facts, Kind, Properties, Token};
use heat_value::{Seq, Text, TryCopy, Value};
use provider::{Answer, Gone, Listed, Listing, Poll, Provider, Traced};
use sample_plans::boxes;
use scripted_cloud::{ScriptedAnswer, ScriptedCloud, change, look, make, send, wait};
use sim_cloud::{KindQuota, Settings, SimCloud};
use std::alloc::{AllocError, Global};
use std::test::Fail;

// A token, its kind, and properties.
struct Example {
    token: Token,
    kind: Kind,
    props: Properties,
}

impl Drop for Example {
    fn drop(self) {
        let Example {
            token: _,
            kind: _,
            props: _,
        } = self;
    }
}

fn of_size(alloc: Global, size: i64) -> Result<Example, Fail> {
    let token = Token::read(alloc, b"s/a/1")?.ok_or("a token")?;
    with_kind(alloc, token, size)
}

fn with_kind(alloc: Global, token: Token, size: i64) -> Result<Example, Fail> {
    let kind = boxes(alloc, &["addr", "link", "size"], &[])?;
    let props = sized(alloc, size)?;
    Ok(Example { token, kind, props })
}

fn sim(alloc: Global) -> Result<SimCloud, AllocError> {
    SimCloud::new(Settings::empty(alloc))
}

// A cloud with two scripted answers, which works then.
fn two_answers(
    alloc: Global,
    first: ScriptedAnswer,
    second: ScriptedAnswer,
) -> Result<ScriptedCloud, AllocError> {
    let mut answers = Seq::new(alloc);
    answers.push(first)?;
    answers.push(second)?;
    Ok(ScriptedCloud::new(alloc, Seq::new(alloc), answers))
}

// What a poll answers, as a text.
fn told(alloc: Global, poll: Poll) -> Result<Text, AllocError> {
    match poll {
        Poll::Ready(facts) => facts_text(alloc, &facts),
        Poll::Broken(code) => Ok(code),
        Poll::NotYet => Text::from_str(alloc, "not yet"),
        Poll::Failed => Text::from_str(alloc, "failed"),
        Poll::Memory => Text::from_str(alloc, "memory"),
    }
}

fn facts_text(alloc: Global, facts: &Facts) -> Result<Text, AllocError> {
    let attrs = Value::Fields(facts.attrs.as_props().copy()?).text(alloc)?;
    let text = format!(in alloc; "{} {}", facts.id.as_str(), attrs.as_str())?;
    Ok(Text::from_string(text))
}

// A create and a poll.
fn made<P: Provider>(alloc: Global, cloud: &mut P, case: &Example) -> Result<Text, AllocError> {
    if make(cloud, &case.token, &case.kind, &case.props) {
        told(alloc, look(cloud, &case.token))
    } else {
        Text::from_str(alloc, "not begun")
    }
}

// A create, an update and a poll.
fn changed<P: Provider>(alloc: Global, cloud: &mut P, case: &Example) -> Result<Text, AllocError> {
    if !make(cloud, &case.token, &case.kind, &case.props) {
        return Text::from_str(alloc, "not begun");
    }
    match change(cloud, &case.token, &case.props) {
        Answer::Begun => told(alloc, look(cloud, &case.token)),
        Answer::Failed => Text::from_str(alloc, "failed"),
        Answer::Quota | Answer::Memory => Text::from_str(alloc, "not begun"),
    }
}

// A create, a delete and two questions; the second is answered so.
fn sent<P: Provider>(cloud: &mut P, case: &Example) -> (Gone, Gone) {
    if send(cloud, &case.token) {
        let first = wait(cloud, &case.token);
        (first, wait(cloud, &case.token))
    } else {
        (Gone::Memory, Gone::Memory)
    }
}

fn how_many<P: Provider>(cloud: &mut P) -> Option<usize> {
    match cloud.list() {
        Listed::Got(all) => Some(all.len()),
        Listed::Failed | Listed::Memory => None,
    }
}

// Whether a simulated resource of this size tells these facts.
fn sim_tells(alloc: Global, size: i64, wanted: &str) -> Result<bool, Fail> {
    let mut cloud = sim(alloc)?;
    let case = of_size(alloc, size)?;
    Ok(made(alloc, &mut cloud, &case)?.as_str() == wanted)
}

// Whether it tells these facts after it had another size.
fn sim_tells_anew(alloc: Global, size: i64, wanted: &str) -> Result<bool, Fail> {
    let mut cloud = sim(alloc)?;
    let _first = made(alloc, &mut cloud, &of_size(alloc, 1)?)?;
    let case = of_size(alloc, size)?;
    Ok(changed(alloc, &mut cloud, &case)?.as_str() == wanted)
}

// What is alive before and after a resource is sent away, and the answers to two questions.
fn sim_sends(alloc: Global) -> Result<(Option<usize>, Gone, Gone, Option<usize>), Fail> {
    let mut cloud = sim(alloc)?;
    let case = of_size(alloc, 1)?;
    let _text = made(alloc, &mut cloud, &case)?;
    let before = how_many(&mut cloud);
    let (first, second) = sent(&mut cloud, &case);
    Ok((before, first, second, how_many(&mut cloud)))
}

// Whether a create and a poll by these two answers answer so.
fn tells(
    alloc: Global,
    first: ScriptedAnswer,
    second: ScriptedAnswer,
    wanted: &str,
) -> Result<bool, Fail> {
    let mut cloud = two_answers(alloc, first, second)?;
    let case = of_size(alloc, 1)?;
    Ok(made(alloc, &mut cloud, &case)?.as_str() == wanted)
}

// What a create by this answer answers, and how many are alive then.
fn creates(alloc: Global, first: ScriptedAnswer) -> Result<(Answer, Option<usize>), Fail> {
    let mut cloud = two_answers(alloc, first, ScriptedAnswer::Works(0))?;
    let case = of_size(alloc, 1)?;
    let answer = cloud.create(&case.token, &case.kind, &case.props);
    Ok((answer, how_many(&mut cloud)))
}

// What a delete and two questions by these answers answer.
fn sends(
    alloc: Global,
    first: ScriptedAnswer,
    second: ScriptedAnswer,
) -> Result<(Gone, Gone), Fail> {
    let mut cloud = two_answers(alloc, first, second)?;
    let case = of_size(alloc, 1)?;
    Ok(sent(&mut cloud, &case))
}

// What a create, a delete and two questions answer, the first two by these answers.
fn makes_and_sends(
    alloc: Global,
    first: ScriptedAnswer,
    second: ScriptedAnswer,
) -> Result<(Gone, Gone), Fail> {
    let mut cloud = two_answers(alloc, first, second)?;
    let case = of_size(alloc, 1)?;
    let _begun = make(&mut cloud, &case.token, &case.kind, &case.props);
    Ok(sent(&mut cloud, &case))
}

// Whether a create and an update by these answers, and a poll, answer so.
fn changes(
    alloc: Global,
    first: ScriptedAnswer,
    second: ScriptedAnswer,
    wanted: &str,
) -> Result<bool, Fail> {
    let mut cloud = two_answers(alloc, first, second)?;
    let case = of_size(alloc, 1)?;
    Ok(changed(alloc, &mut cloud, &case)?.as_str() == wanted)
}

// What a delete by this answer answers.
fn deletes(alloc: Global, first: ScriptedAnswer) -> Result<Answer, Fail> {
    let mut cloud = two_answers(alloc, first, ScriptedAnswer::Works(0))?;
    let case = of_size(alloc, 1)?;
    Ok(cloud.delete(&case.token))
}

// What a create answers where no box may be alive.
fn creates_none(alloc: Global) -> Result<Answer, Fail> {
    let mut quotas = Seq::new(alloc);
    let kind = Text::from_str(alloc, "Test::Box")?;
    quotas.push(KindQuota { kind, most: 0 })?;
    let mut cloud = ScriptedCloud::new(alloc, quotas, Seq::new(alloc));
    let case = of_size(alloc, 1)?;
    Ok(cloud.create(&case.token, &case.kind, &case.props))
}

fn lists(alloc: Global, first: ScriptedAnswer) -> Result<Option<usize>, Fail> {
    let mut cloud = two_answers(alloc, first, ScriptedAnswer::Works(0))?;
    Ok(how_many(&mut cloud))
}

#[test]
fn a_simulated_resource_has_its_id_and_attributes(rt: HostRuntime) -> Result<(), Fail> {
    let alloc = rt.alloc();
    let small = "sim-1 {\"addr\":\"addr-1\",\"link\":\"link-1\",\"size\":1}";
    assert!(rt; sim_tells(alloc, 1, small)?);
    let big = "sim-1 {\"addr\":\"addr-1\",\"link\":\"link-1\",\"size\":2}";
    assert!(rt; sim_tells_anew(alloc, 2, big)?);
    Ok(())
}

#[test]
fn a_simulated_resource_goes(rt: HostRuntime) -> Result<(), Fail> {
    let (before, first, second, after) = sim_sends(rt.alloc())?;
    assert_eq!(rt; before, Some(1));
    assert_eq!(rt; first, Gone::Gone);
    assert_eq!(rt; second, Gone::Gone);
    assert_eq!(rt; after, Some(0));
    Ok(())
}

#[test]
fn a_scripted_poll_gives_each_answer(rt: HostRuntime) -> Result<(), Fail> {
    let alloc = rt.alloc();
    assert!(rt;
        tells(
            alloc,
            ScriptedAnswer::Works(1),
            ScriptedAnswer::Works(0),
            "not yet"
        )?
    );
    assert!(rt;
        tells(
            alloc,
            ScriptedAnswer::Works(0),
            ScriptedAnswer::Fails,
            "failed"
        )?
    );
    assert!(rt;
        tells(
            alloc,
            ScriptedAnswer::Works(0),
            ScriptedAnswer::Breaks(Text::from_str(alloc, "bad")?),
            "bad"
        )?
    );
    assert!(rt;
        tells(
            alloc,
            ScriptedAnswer::Fails,
            ScriptedAnswer::Fails,
            "not begun"
        )?
    );
    Ok(())
}

#[test]
fn a_scripted_create_gives_each_answer(rt: HostRuntime) -> Result<(), Fail> {
    let alloc = rt.alloc();
    assert_eq!(rt;
        creates(alloc, ScriptedAnswer::Works(0))?,
        (Answer::Begun, Some(1))
    );
    assert_eq!(rt;
        creates(alloc, ScriptedAnswer::Fails)?,
        (Answer::Failed, Some(0))
    );
    assert_eq!(rt;
        creates(alloc, ScriptedAnswer::FailsLate(0))?,
        (Answer::Failed, Some(1))
    );
    Ok(())
}

#[test]
fn a_scripted_question_gives_each_answer(rt: HostRuntime) -> Result<(), Fail> {
    let alloc = rt.alloc();
    assert_eq!(rt;
        sends(alloc, ScriptedAnswer::Works(0), ScriptedAnswer::Fails)?,
        (Gone::Failed, Gone::Gone)
    );
    Ok(())
}

#[test]
fn a_quota_refuses(rt: HostRuntime) -> Result<(), Fail> {
    assert_eq!(rt; creates_none(rt.alloc())?, Answer::Quota);
    Ok(())
}

#[test]
fn a_resource_lingers_while_polls_are_left(rt: HostRuntime) -> Result<(), Fail> {
    let answers = makes_and_sends(
        rt.alloc(),
        ScriptedAnswer::Works(0),
        ScriptedAnswer::Works(1),
    )?;
    assert_eq!(rt; answers, (Gone::NotYet, Gone::Gone));
    Ok(())
}

#[test]
fn scripted_calls_fail(rt: HostRuntime) -> Result<(), Fail> {
    let alloc = rt.alloc();
    assert!(rt;
        changes(
            alloc,
            ScriptedAnswer::Works(0),
            ScriptedAnswer::Fails,
            "failed"
        )?
    );
    assert!(rt;
        changes(
            alloc,
            ScriptedAnswer::Works(0),
            ScriptedAnswer::FailsLate(0),
            "failed"
        )?
    );
    assert_eq!(rt; deletes(alloc, ScriptedAnswer::Fails)?, Answer::Failed);
    assert_eq!(rt; lists(alloc, ScriptedAnswer::Fails)?, None);
    Ok(())
}

#[test]
fn a_call_of_a_trace_is_copied(rt: HostRuntime) -> Result<(), Fail> {
    let call = Traced::Listed(Listing::Failed);
    let copied = call.copy()?;
    assert!(rt; matches!(&copied, Traced::Listed(Listing::Failed)));
    Ok(())
}
