//! The words of a provider's calls: what was requested, and what was answered. A provider's trace and
//! the engine's history both write them.
use crate::{Facts, Properties};
use heat_value::{Equals, Text, TryCopy};
use std::alloc::AllocError;

/// A request for a token; a create names the kind, and a create and an update the properties.
#[derive(Debug)]
pub enum Request {
    Create(Text, Properties),
    Update(Properties),
    Delete,
    Poll,
    Gone,
}

impl Drop for Request {
    fn drop(self) {
        match self {
            Request::Create(_, _) => {}
            Request::Update(_) => {}
            Request::Delete => {}
            Request::Poll => {}
            Request::Gone => {}
        }
    }
}

/// An answer that a trace keeps; `Broken` carries the provider's code.
#[derive(Debug)]
pub enum Answered {
    Begun,
    Quota,
    Failed,
    NotYet,
    Ready(Facts),
    Broken(Text),
    Gone,
}

impl Drop for Answered {
    fn drop(self) {
        match self {
            Answered::Begun => {}
            Answered::Quota => {}
            Answered::Failed => {}
            Answered::NotYet => {}
            Answered::Ready(_) => {}
            Answered::Broken(_) => {}
            Answered::Gone => {}
        }
    }
}

impl TryCopy for Request {
    fn copy(&self) -> Result<Request, AllocError> {
        match self {
            Request::Create(kind, props) => Ok(Request::Create(kind.copy()?, props.copy()?)),
            Request::Update(props) => Ok(Request::Update(props.copy()?)),
            Request::Delete => Ok(Request::Delete),
            Request::Poll => Ok(Request::Poll),
            Request::Gone => Ok(Request::Gone),
        }
    }
}

impl TryCopy for Answered {
    fn copy(&self) -> Result<Answered, AllocError> {
        match self {
            Answered::Begun => Ok(Answered::Begun),
            Answered::Quota => Ok(Answered::Quota),
            Answered::Failed => Ok(Answered::Failed),
            Answered::NotYet => Ok(Answered::NotYet),
            Answered::Ready(facts) => Ok(Answered::Ready(facts.copy()?)),
            Answered::Broken(code) => Ok(Answered::Broken(code.copy()?)),
            Answered::Gone => Ok(Answered::Gone),
        }
    }
}

impl Equals for Request {
    fn equals(&self, other: &Request) -> bool {
        match (self, other) {
            (Request::Create(kind, props), Request::Create(its_kind, its_props)) => {
                kind.equals(its_kind) && props.equals(its_props)
            }
            (Request::Update(props), Request::Update(its_props)) => props.equals(its_props),
            (Request::Delete, Request::Delete) => true,
            (Request::Poll, Request::Poll) => true,
            (Request::Gone, Request::Gone) => true,
            _ => false,
        }
    }
}

impl Equals for Answered {
    fn equals(&self, other: &Answered) -> bool {
        match (self, other) {
            (Answered::Ready(facts), Answered::Ready(its_facts)) => facts.equals(its_facts),
            (Answered::Broken(code), Answered::Broken(its_code)) => code.equals(its_code),
            (Answered::Begun, Answered::Begun) => true,
            (Answered::Quota, Answered::Quota) => true,
            (Answered::Failed, Answered::Failed) => true,
            (Answered::NotYet, Answered::NotYet) => true,
            (Answered::Gone, Answered::Gone) => true,
            _ => false,
        }
    }
}
