//! All parts of a template.
ghost use Rattle.std.specs.Prelude.{IfOk, OnOk, codes};
ghost use Rattle.heat_value.specs.Data.{Rises};
ghost use Rattle.hot_tree.specs.Readings.{entries as the_entries};
ghost use Rattle.hot_tree.specs.Parts.{ArePartsOf};

use crate::out_part::outputs_of;
use crate::param::params_of;
use crate::reading::entries;
use crate::res::resources_of;
use crate::{Out, Param, Res};
use heat_value::{Props, Seq, TryCopy};
use std::alloc::{AllocError, Global};

/// Parameters, resources and outputs, each in byte order of the names, and the section `conditions`.
#[derive(Debug)]
pub struct Parts {
    pub params: Seq<Param>,
    pub conds: Props,
    pub resources: Seq<Res>,
    pub outputs: Seq<Out>,
}

impl Drop for Parts {
    fn drop(self) {
        let Parts {
            params: _,
            conds: _,
            resources: _,
            outputs: _,
        } = self;
    }
}

impl Parts {
    /// The parts of a template's object.
    pub fn of(alloc: Global, template: &Props) -> Result<Parts, AllocError>
        ensures exact { IfOk result (λ p. ArePartsOf template.now p) }
        ensures rising { OnOk result (Rises (the_entries (codes "resources") template.now)) }
    {
        let none = Props::new(alloc);
        Ok(Parts {
            params: params_of(alloc, entries(alloc, "parameters", template, &none)?)?,
            conds: entries(alloc, "conditions", template, &none)?.copy()?,
            resources: resources_of(alloc, entries(alloc, "resources", template, &none)?)?,
            outputs: outputs_of(alloc, entries(alloc, "outputs", template, &none)?)?,
        })
    }
}
