//! The definition of a kind.
ghost use Rattle.std.specs.Prelude.{◌≡◌, ◌↔◌, IfOk, IsTrue};
ghost use Rattle.type_catalog.specs.Kinds.{softs_of, kind_of};

use heat_plan::Kind;
use heat_value::{Equals, Seq, Text, TryCopy};
use std::alloc::AllocError;

/// A property of a kind: whether a resource has to have it, and whether it changes in place.
#[derive(Debug, Drop)]
pub struct PropDef {
    pub name: Text,
    pub required: bool,
    pub soft: bool,
}

/// A kind: its name, its properties and its attributes.
#[derive(Debug)]
pub struct KindDef {
    pub name: Text,
    pub props: Seq<PropDef>,
    pub attrs: Seq<Text>,
}

impl Drop for KindDef {
    fn drop(self) {
        let KindDef {
            name: _,
            props: _,
            attrs: _,
        } = self;
    }
}

impl KindDef {
    /// The names of the properties that change in place, in the order of the properties.
    pub fn softs(&self) -> Result<Seq<Text>, AllocError>
        ensures { IfOk result (λ s. s ≡ softs_of self.now.props) }
    {
        let mut softs = Seq::new(self.props.allocator());
        for prop in self.props.as_slice() {
            if prop.soft {
                softs.push(prop.name.copy()?)?;
            }
        }
        Ok(softs)
    }

    /// Whether these are the names of the properties that change in place, in the order of the properties.
    pub fn has_softs(&self, softs: &[Text]) -> bool
        ensures { IsTrue result ↔ softs_of self.now.props ≡ softs.now }
    {
        let mut rest = softs;
        for prop in self.props.as_slice() {
            if !prop.soft {
                continue;
            }
            match rest.split_first() {
                Some((first, others)) if prop.name == *first => rest = others,
                _ => return false,
            }
        }
        rest.is_empty()
    }

    /// What an item keeps of its kind.
    pub fn kind(&self) -> Result<Kind, AllocError>
        ensures { IfOk result (λ k. k ≡ kind_of self.now) }
    {
        Ok(Kind {
            name: self.name.copy()?,
            attrs: self.attrs.copy()?,
            soft: self.softs()?,
        })
    }
}

impl TryCopy for PropDef {
    fn copy(&self) -> Result<PropDef, AllocError> {
        Ok(PropDef {
            name: self.name.copy()?,
            required: self.required,
            soft: self.soft,
        })
    }
}

impl TryCopy for KindDef {
    fn copy(&self) -> Result<KindDef, AllocError> {
        Ok(KindDef {
            name: self.name.copy()?,
            props: self.props.copy()?,
            attrs: self.attrs.copy()?,
        })
    }
}

impl Equals for PropDef {
    fn equals(&self, other: &PropDef) -> bool {
        self.name.equals(&other.name) && self.required == other.required && self.soft == other.soft
    }
}

impl Equals for KindDef {
    fn equals(&self, other: &KindDef) -> bool {
        self.name.equals(&other.name)
            && self.props.equals(&other.props)
            && self.attrs.equals(&other.attrs)
    }
}
