//! A plan: what a template asks for, once it is admitted.
ghost use Rattle.std.specs.Prelude.{◌≡◌, List, ℕ};

use crate::{ByName, Condition, Expression, File, Item, Parameters, ResName};
use heat_value::{Equals, Seq, Text, TryCopy};
use std::alloc::AllocError;
use std::marker::Model;

/// An output of a template, which is evaluated when it is listed.
#[derive(Debug)]
pub struct Output {
    pub name: Text,
    pub value: Expression,
}

impl Drop for Output {
    fn drop(self) {
        let Output { name: _, value: _ } = self;
    }
}

/// Items in byte order of their names, each name once, whose needs are names of items and have no
/// cycle; outputs; bound parameters; conditions; files; and the names of resources whose condition
/// is false, none of which is an item's.
#[derive(Debug)]
pub struct Plan {
    items: Seq<Item>,
    outputs: Seq<Output>,
    params: Parameters,
    conds: ByName<Condition>,
    files: ByName<File>,
    absent: Seq<ResName>,
}

impl Drop for Plan {
    fn drop(self) {
        let Plan {
            items: _,
            outputs: _,
            params: _,
            conds: _,
            files: _,
            absent: _,
        } = self;
    }
}

impl Model for Plan {
    ghost use Rattle.heat_plan.specs.Plans.{PlanData, IsPlan};
    ghost use Rattle.std.specs.Coded.{codes};
    ghost use Rattle.heat_value.specs.Code.{data_code, members_code};

    ghost Value = { PlanData };

    ghost coded = { Prim.hlevel (codes, data_code, members_code) };

    ghost view = { λ p. record {
      items = p.items;
      outputs = p.outputs;
      params = p.params;
      conds = p.conds;
      files = p.files;
      absent = p.absent;
    } };

    ghost invariant = { λ p. IsPlan p.items p.absent };
}

impl Plan {
    ghost use Rattle.heat_plan.specs.Plans.{IsPlan};

    /// A plan of these parts.
    pub fn new(
        items: Seq<Item>,
        outputs: Seq<Output>,
        params: Parameters,
        conds: ByName<Condition>,
        files: ByName<File>,
        absent: Seq<ResName>,
    ) -> Plan
        requires { IsPlan items absent }
        ensures { result ≡ record {
          items = items;
          outputs = outputs;
          params = params;
          conds = conds;
          files = files;
          absent = absent;
        } }
    {
        Plan {
            items,
            outputs,
            params,
            conds,
            files,
            absent,
        }
    }

    /// The items, in byte order of their names.
    pub fn items(&self) -> &[Item]
        ensures value { result.now ≡ self.now.items }
        ensures plan { IsPlan self.now.items self.now.absent }
    {
        self.items.as_slice()
    }

    /// The outputs.
    pub fn outputs(&self) -> &[Output]
        ensures { result.now ≡ self.now.outputs }
    {
        self.outputs.as_slice()
    }

    /// The bound parameters, the pseudo parameters among them.
    pub fn params(&self) -> &Parameters
        ensures { result.now ≡ self.now.params }
    {
        &self.params
    }

    /// The conditions and their values.
    pub fn conds(&self) -> &ByName<Condition>
        ensures { result.now ≡ self.now.conds }
    {
        &self.conds
    }

    /// The files.
    pub fn files(&self) -> &ByName<File>
        ensures { result.now ≡ self.now.files }
    {
        &self.files
    }

    /// The resources whose condition is false.
    pub fn absent(&self) -> &[ResName]
        ensures { result.now ≡ self.now.absent }
    {
        self.absent.as_slice()
    }
}

impl TryCopy for Output {
    fn copy(&self) -> Result<Output, AllocError> {
        Ok(Output {
            name: self.name.copy()?,
            value: self.value.copy()?,
        })
    }
}

impl TryCopy for Plan {
    fn copy(&self) -> Result<Plan, AllocError> {
        Ok(Plan {
            items: self.items.copy()?,
            outputs: self.outputs.copy()?,
            params: self.params.copy()?,
            conds: self.conds.copy()?,
            files: self.files.copy()?,
            absent: self.absent.copy()?,
        })
    }
}

impl Equals for Output {
    fn equals(&self, other: &Output) -> bool {
        self.name.equals(&other.name) && self.value.equals(&other.value)
    }
}

impl Equals for Plan {
    fn equals(&self, other: &Plan) -> bool {
        self.items.equals(&other.items)
            && self.outputs.equals(&other.outputs)
            && self.params.equals(&other.params)
            && self.conds.equals(&other.conds)
            && self.files.equals(&other.files)
            && self.absent.equals(&other.absent)
    }
}
