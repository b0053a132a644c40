//! What a file says of its resource: two lines of JSON, the kind with two flags and the properties.
ghost use Rattle.std.specs.Prelude.{◌≡◌, None, IfOk, IfSome};
ghost use Rattle.heat_value.specs.Data.{fields};
ghost use Rattle.heat_value.specs.Meaning.{data_of};
ghost use Rattle.heat_value.specs.Reading.{IsReadAs};
ghost use Rattle.provider.specs.Same.{same_members};
ghost use Rattle.file_provider.specs.Cards.{head_of, card_after};

use crate::facts::facts_of;
use heat_plan::{Properties, Request, Token};
use heat_value::{Equals, Props, Text, TryCopy, Value, ValueFault};
use provider::Alive;
use sim_cloud::Held;
use std::alloc::{AllocError, Global};

/// A resource's kind by name, its properties, whether it is leaving, and whether it was told as ready.
#[derive(Debug, Drop)]
pub struct Card {
    pub kind: Text,
    pub props: Properties,
    pub leaving: bool,
    pub ready: bool,
}

impl Card {
    ghost use Rattle.file_provider.specs.Cards.{head_of, text_of, card_of, held_by, updated_by, IsCardOf};

    /// The card of a resource.
    pub fn of(held: &Held) -> Result<Card, AllocError>
        ensures { IfOk result (λ p. p ≡ card_of held.now) }
    {
        Ok(Card {
            kind: held.what.kind.copy()?,
            props: held.what.props.copy()?,
            leaving: held.leaving,
            ready: held.what.ready,
        })
    }

    /// The resource of this token that it says, with no polls left.
    pub fn held(self, alloc: Global, token: Token) -> Result<Held, AllocError>
        ensures { IfOk result (λ h. h ≡ held_by token self) }
    {
        let facts = facts_of(alloc, &token, &self.props)?;
        let Card {
            kind,
            props,
            leaving,
            ready,
        } = self;
        let what = Alive {
            token,
            kind,
            props,
            facts,
            ready,
        };
        Ok(Held {
            what,
            leaving,
            left: 0,
        })
    }

    /// Its text.
    pub fn text(&self, alloc: Global) -> Result<Text, AllocError>
        ensures { IfOk result (λ t. t ≡ text_of self.now) }
    {
        let props = Value::Fields(self.props.as_props().copy()?);
        let (first, second) = (self.head(alloc)?.text(alloc)?, props.text(alloc)?);
        let text = format!(in alloc; "{}\n{}\n", first.as_str(), second.as_str())?;
        Ok(Text::from_string(text))
    }

    // The first line as a value.
    fn head(&self, alloc: Global) -> Result<Value, AllocError>
        ensures { IfOk result (λ v. data_of v ≡ head_of self.now) }
    {
        let mut all = Props::new(alloc);
        all.put(
            Text::from_str(alloc, "kind")?,
            Value::Words(self.kind.copy()?),
        )?;
        all.put(Text::from_str(alloc, "leaving")?, Value::Flag(self.leaving))?;
        all.put(Text::from_str(alloc, "ready")?, Value::Flag(self.ready))?;
        Ok(Value::Fields(all))
    }

    // With these properties; where they are others it isn't ready.
    fn updated(self, props: &Properties) -> Result<Card, AllocError>
        ensures { IfOk result (λ p. p ≡ updated_by props.now self) }
    {
        if self.has(props) {
            return Ok(self);
        }
        Ok(Card {
            props: props.copy()?,
            ready: false,
            ..self
        })
    }

    // Whether it has these properties.
    fn has(&self, props: &Properties) -> bool
        ensures { result ≡ same_members self.now.props props.now }
    {
        self.props.equals(props)
    }

    /// The card that bytes say; none where they say none.
    pub fn read(alloc: Global, bytes: &[u8]) -> Result<Option<Card>, AllocError>
        ensures { IfOk result (λ o. IfSome o (λ p. IsCardOf bytes.now p)) }
    {
        let Some(at) = bytes.iter().position(|byte| *byte == b'\n') else {
            return Ok(None);
        };
        let Some(head) = value_in(alloc, &bytes[..at])? else {
            return Ok(None);
        };
        let Some(props) = value_in(alloc, &bytes[at + 1..])? else {
            return Ok(None);
        };
        card_in(alloc, &head, &props)
    }
}

// The card of two values; none where the first is no head of a card, or the second no map.
fn card_in(alloc: Global, head: &Value, props: &Value) -> Result<Option<Card>, AllocError>
    ensures { IfOk result (λ o. IfSome o (λ p.
        (head_of p ≡ data_of head.now) × (fields p.props ≡ data_of props.now))) }
{
    let Some(props) = map_of(props)? else {
        return Ok(None);
    };
    let Value::Fields(members) = head else {
        return Ok(None);
    };
    let kind = members.get(&Text::from_str(alloc, "kind")?);
    let leaving = members.get(&Text::from_str(alloc, "leaving")?);
    let ready = members.get(&Text::from_str(alloc, "ready")?);
    let (Some(Value::Words(kind)), Some(Value::Flag(leaving)), Some(Value::Flag(ready))) = (
        kind, leaving, ready,
    ) else {
        return Ok(None);
    };
    let card = Card {
        kind: kind.copy()?,
        props,
        leaving: *leaving,
        ready: *ready,
    };
    if card.head(alloc)?.equals(head) {
        Ok(Some(card))
    } else {
        Ok(None)
    }
}

// The value that bytes are read as; none where they are read as none.
fn value_in(alloc: Global, bytes: &[u8]) -> Result<Option<Value>, AllocError>
    ensures { IfOk result (λ o. IfSome o (λ v. IsReadAs bytes.now (data_of v))) }
{
    match Value::read(alloc, bytes) {
        Ok(value) => Ok(Some(value)),
        Err(ValueFault::Memory) => Err(AllocError),
        Err(ValueFault::NotJson | ValueFault::TooDeep | ValueFault::BadNumber(_)) => Ok(None),
    }
}

// The map that a value is; none where it is another value, or nests deeper than a map of properties may.
fn map_of(value: &Value) -> Result<Option<Properties>, AllocError>
    ensures { IfOk result (λ o. IfSome o (λ p. fields p ≡ data_of value.now)) }
{
    match value {
        Value::Fields(props) => Ok(Properties::from_props(props.copy()?)),
        Value::Null | Value::Flag(_) | Value::Whole(_) => Ok(None),
        Value::Words(_) | Value::Items(_) => Ok(None),
    }
}

/// The card behind this request, where it is begun, Ready or Gone.
pub fn after(request: &Request, card: Option<Card>) -> Result<Option<Card>, AllocError>
    ensures { IfOk result (λ p. p ≡ card_after request.now card) }
{
    let Some(card) = card else {
        return first(request);
    };
    match request {
        Request::Create(_, _) => Ok(Some(card)),
        Request::Update(props) => Ok(Some(card.updated(props)?)),
        Request::Delete => Ok(Some(Card {
            leaving: true,
            ..card
        })),
        Request::Poll => Ok(Some(Card {
            ready: true,
            ..card
        })),
        Request::Gone => Ok(None),
    }
}

// The card behind this request where there was none.
fn first(request: &Request) -> Result<Option<Card>, AllocError>
    ensures { IfOk result (λ p. p ≡ card_after request.now None) }
{
    match request {
        Request::Create(kind, props) => Ok(Some(Card {
            kind: kind.copy()?,
            props: props.copy()?,
            leaving: false,
            ready: false,
        })),
        Request::Update(_) | Request::Delete | Request::Poll | Request::Gone => Ok(None),
    }
}
