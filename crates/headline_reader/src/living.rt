//! What an alive resource is, as the calls of a history tell it.
ghost use Rattle.std.specs.Prelude.{◌≡◌, IfOk};
ghost use Rattle.provider.specs.Same.{same_members};
ghost use Rattle.provider.specs.Table.{begun, updated, going, told, same_state};

use heat_plan::{Facts, Properties};
use heat_value::{Equals, Text, TryCopy, copy_option};
use std::alloc::AllocError;
use std::marker::Model;

/// Its kind's name, its properties, its facts where it is ready, and whether it is leaving.
#[derive(Debug)]
pub struct Living {
    pub(crate) kind: Text,
    pub(crate) props: Properties,
    pub(crate) facts: Option<Facts>,
    pub(crate) leaving: bool,
}

impl Drop for Living {
    fn drop(self) {
        let Living {
            kind: _,
            props: _,
            facts: _,
            leaving: _,
        } = self;
    }
}

impl Model for Living {
    ghost use Rattle.std.specs.Coded.{codes};
    ghost use Rattle.heat_value.specs.Code.{data_code, members_code};
    ghost use Rattle.provider.specs.Table.{Living as living_type};

    ghost Value = { living_type };

    ghost coded = { Prim.hlevel (codes, data_code, members_code) };

    ghost view = { λ l. record {
      kind = l.kind;
      props = l.props;
      facts = l.facts;
      leaving = l.leaving;
    } };
}

impl TryCopy for Living {
    fn copy(&self) -> Result<Living, AllocError> {
        Ok(Living {
            kind: self.kind.copy()?,
            props: self.props.copy()?,
            facts: copy_option(&self.facts)?,
            leaving: self.leaving,
        })
    }
}

impl Equals for Living {
    fn equals(&self, other: &Living) -> bool {
        self.kind.equals(&other.kind)
            && self.props.equals(&other.props)
            && self.facts.equals(&other.facts)
            && self.leaving == other.leaving
    }
}

impl Living {
    /// Its properties.
    pub fn props(&self) -> &Properties
        ensures { result.now ≡ self.now.props }
    {
        &self.props
    }

    /// Its facts, where it is ready.
    pub fn facts(&self) -> &Option<Facts>
        ensures { result.now ≡ self.now.facts }
    {
        &self.facts
    }

    /// As a create begins it.
    pub(crate) fn begun(kind: &Text, props: &Properties) -> Result<Living, AllocError>
        ensures { IfOk result (λ l. l ≡ begun kind.now props.now) }
    {
        Ok(Living {
            kind: kind.copy()?,
            props: props.copy()?,
            facts: None,
            leaving: false,
        })
    }

    /// As an update sets it: its facts are dropped where the properties differed.
    pub(crate) fn updated(&self, props: &Properties) -> Result<Living, AllocError>
        ensures { IfOk result (λ l. l ≡ updated props.now self.now) }
    {
        if same_props(props, &self.props) {
            return self.copy();
        }
        Ok(Living {
            kind: self.kind.copy()?,
            props: props.copy()?,
            facts: None,
            leaving: self.leaving,
        })
    }

    /// As a delete leaves it.
    pub(crate) fn going(&self) -> Result<Living, AllocError>
        ensures { IfOk result (λ l. l ≡ going self.now) }
    {
        Ok(Living {
            kind: self.kind.copy()?,
            props: self.props.copy()?,
            facts: copy_option(&self.facts)?,
            leaving: true,
        })
    }

    /// With the facts that were told.
    pub(crate) fn told(&self, facts: &Facts) -> Result<Living, AllocError>
        ensures { IfOk result (λ l. l ≡ told facts.now self.now) }
    {
        Ok(Living {
            kind: self.kind.copy()?,
            props: self.props.copy()?,
            facts: Some(facts.copy()?),
            leaving: self.leaving,
        })
    }
}

// Whether two maps hold the same.
fn same_props(a: &Properties, b: &Properties) -> bool
    ensures { result ≡ same_members a.now b.now }
{
    a.equals(b)
}

/// Whether two states are the same.
pub(crate) fn same_state(a: &Option<Living>, b: &Option<Living>) -> bool
    ensures { result ≡ same_state a.now b.now }
{
    a.equals(b)
}
