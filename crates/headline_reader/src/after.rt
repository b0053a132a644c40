//! What each answer makes of a state in which a token may be: the cloud's table, line by line.
ghost use Rattle.std.specs.Prelude.{◌≡◌, ◌∷◌, ◌++◌, [], IfOk, OnOk, filter, not};
ghost use Rattle.provider.specs.Table.{after, after_each, once, same_state};

use crate::living::{Living, same_state};
use heat_plan::{Answered, Properties, Request};
use heat_value::{Seq, Text, TryCopy, copy_option};
use std::alloc::{AllocError, Global};

/// The states in which a token may be after this answer to this request; none where it can't come.
pub(crate) fn after(
    alloc: Global,
    request: &Request,
    answer: &Answered,
    state: &Option<Living>,
) -> Result<Seq<Option<Living>>, AllocError>
    ensures { IfOk result (λ s. s ≡ after request.now answer.now state.now) }
{
    match request {
        Request::Create(kind, props) => match state {
            None => created(alloc, kind, props, answer),
            Some(it) => created_again(alloc, kind, props, answer, it),
        },
        Request::Update(props) => match state {
            None => Ok(Seq::new(alloc)),
            Some(it) => updated(alloc, props, answer, it),
        },
        Request::Delete => match state {
            None => deleted_again(alloc, answer),
            Some(it) => deleted(alloc, answer, it),
        },
        Request::Poll => match state {
            None => Ok(Seq::new(alloc)),
            Some(it) => polled(alloc, answer, it),
        },
        Request::Gone => match state {
            None => gone_again(alloc, answer),
            Some(it) => gone(alloc, answer, it),
        },
    }
}

// One state that a token may be in.
fn one(alloc: Global, state: Option<Living>) -> Result<Seq<Option<Living>>, AllocError>
    ensures { IfOk result (λ s. s ≡ state ∷ []) }
{
    let mut states = Seq::new(alloc);
    states.push(state)?;
    Ok(states)
}

// Two states that it may be in.
fn two(
    alloc: Global,
    first: Option<Living>,
    second: Option<Living>,
) -> Result<Seq<Option<Living>>, AllocError>
    ensures { IfOk result (λ s. s ≡ first ∷ second ∷ []) }
{
    let mut states = one(alloc, first)?;
    states.push(second)?;
    Ok(states)
}

// A create of an absent token.
fn created(
    alloc: Global,
    kind: &Text,
    props: &Properties,
    answer: &Answered,
) -> Result<Seq<Option<Living>>, AllocError>
    ensures { IfOk result (λ s. s ≡ after (Request.Create kind.now props.now) answer.now None) }
{
    match answer {
        Answered::Begun => one(alloc, Some(Living::begun(kind, props)?)),
        Answered::Quota => one(alloc, None),
        Answered::Failed => two(alloc, None, Some(Living::begun(kind, props)?)),
        Answered::NotYet | Answered::Ready(_) | Answered::Broken(_) | Answered::Gone => {
            Ok(Seq::new(alloc))
        }
    }
}

// A create of an alive token has no further effect.
fn created_again(
    alloc: Global,
    kind: &Text,
    props: &Properties,
    answer: &Answered,
    it: &Living,
) -> Result<Seq<Option<Living>>, AllocError>
    ensures { IfOk result (λ s.
        s ≡ after (Request.Create kind.now props.now) answer.now (Some it.now)) }
{
    let (_kind, _props) = (kind, props);
    match answer {
        Answered::Begun | Answered::Failed => one(alloc, Some(it.copy()?)),
        Answered::Quota
        | Answered::NotYet
        | Answered::Ready(_)
        | Answered::Broken(_)
        | Answered::Gone => Ok(Seq::new(alloc)),
    }
}

// What an update and its answer make of an alive resource.
fn updated(
    alloc: Global,
    props: &Properties,
    answer: &Answered,
    it: &Living,
) -> Result<Seq<Option<Living>>, AllocError>
    ensures { IfOk result (λ s.
        s ≡ after (Request.Update props.now) answer.now (Some it.now)) }
{
    match answer {
        Answered::Begun => one(alloc, Some(it.updated(props)?)),
        Answered::Failed => two(alloc, Some(it.copy()?), Some(it.updated(props)?)),
        Answered::Quota
        | Answered::NotYet
        | Answered::Ready(_)
        | Answered::Broken(_)
        | Answered::Gone => Ok(Seq::new(alloc)),
    }
}

// What a delete and its answer make of it.
fn deleted(alloc: Global, answer: &Answered, it: &Living) -> Result<Seq<Option<Living>>, AllocError>
    ensures { IfOk result (λ s. s ≡ after Request.Delete answer.now (Some it.now)) }
{
    match answer {
        Answered::Begun => one(alloc, Some(it.going()?)),
        Answered::Failed => two(alloc, Some(it.copy()?), Some(it.going()?)),
        Answered::Quota
        | Answered::NotYet
        | Answered::Ready(_)
        | Answered::Broken(_)
        | Answered::Gone => Ok(Seq::new(alloc)),
    }
}

// A delete of an absent token.
fn deleted_again(alloc: Global, answer: &Answered) -> Result<Seq<Option<Living>>, AllocError>
    ensures { IfOk result (λ s. s ≡ after Request.Delete answer.now None) }
{
    match answer {
        Answered::Begun | Answered::Failed => one(alloc, None),
        Answered::Quota
        | Answered::NotYet
        | Answered::Ready(_)
        | Answered::Broken(_)
        | Answered::Gone => Ok(Seq::new(alloc)),
    }
}

// What a poll and its answer make of it.
fn polled(alloc: Global, answer: &Answered, it: &Living) -> Result<Seq<Option<Living>>, AllocError>
    ensures { IfOk result (λ s. s ≡ after Request.Poll answer.now (Some it.now)) }
{
    match answer {
        Answered::Ready(facts) => one(alloc, Some(it.told(facts)?)),
        Answered::NotYet | Answered::Broken(_) | Answered::Failed => {
            one(alloc, Some(it.copy()?))
        }
        Answered::Begun | Answered::Quota | Answered::Gone => Ok(Seq::new(alloc)),
    }
}

// A leaving token that is asked whether it is gone.
fn gone(alloc: Global, answer: &Answered, it: &Living) -> Result<Seq<Option<Living>>, AllocError>
    ensures { IfOk result (λ s. s ≡ after Request.Gone answer.now (Some it.now)) }
{
    match answer {
        Answered::Gone if it.leaving => one(alloc, None),
        Answered::NotYet if it.leaving => one(alloc, Some(it.copy()?)),
        Answered::Failed => one(alloc, Some(it.copy()?)),
        Answered::Gone
        | Answered::NotYet
        | Answered::Begun
        | Answered::Quota
        | Answered::Ready(_)
        | Answered::Broken(_) => Ok(Seq::new(alloc)),
    }
}

// An absent token that is asked whether it is gone.
fn gone_again(alloc: Global, answer: &Answered) -> Result<Seq<Option<Living>>, AllocError>
    ensures { IfOk result (λ s. s ≡ after Request.Gone answer.now None) }
{
    match answer {
        Answered::Gone | Answered::Failed => one(alloc, None),
        Answered::Begun
        | Answered::Quota
        | Answered::NotYet
        | Answered::Ready(_)
        | Answered::Broken(_) => Ok(Seq::new(alloc)),
    }
}

/// Each state turned into those of its row, equal states once.
pub(crate) fn after_each(
    alloc: Global,
    request: &Request,
    answer: &Answered,
    states: &[Option<Living>],
) -> Result<Seq<Option<Living>>, AllocError>
    ensures { IfOk result (λ s. s ≡ after_each request.now answer.now states.now) }
{
    let mut all = Seq::new(alloc);
    for state in states {
        let next = after(alloc, request, answer, state)?;
        add(&mut all, next.as_slice())?;
    }
    once(alloc, all.as_slice())
}

// Puts the states behind those that were found before.
fn add(all: &mut Seq<Option<Living>>, more: &[Option<Living>]) -> Result<(), AllocError>
    ensures { OnOk result (all.new ≡ all.old ++ more.now) }
{
    for state in more {
        all.push(copy_option(state)?)?;
    }
    Ok(())
}

// Each state once, at its first place.
fn once(alloc: Global, all: &[Option<Living>]) -> Result<Seq<Option<Living>>, AllocError>
    ensures { IfOk result (λ s. s ≡ once all.now) }
{
    let mut kept = Seq::new(alloc);
    for at in (0..all.len()).rev() {
        kept = before_others(alloc, &all[at], kept.as_slice())?;
    }
    Ok(kept)
}

// The state, and behind it those of the rest that are others.
fn before_others(
    alloc: Global,
    state: &Option<Living>,
    rest: &[Option<Living>],
) -> Result<Seq<Option<Living>>, AllocError>
    ensures { IfOk result (λ s.
        s ≡ state.now ∷ filter (λ r. not (same_state state.now r)) rest.now) }
{
    let mut kept = one(alloc, copy_option(state)?)?;
    for other in rest {
        if !same_state(state, other) {
            kept.push(copy_option(other)?)?;
        }
    }
    Ok(kept)
}
