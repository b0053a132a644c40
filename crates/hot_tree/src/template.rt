//! A right template.
ghost use Rattle.std.specs.Prelude.{◌≡◌, IfOk, IfErr, None, codes};
ghost use Rattle.heat_value.specs.Meaning.{data_of};
ghost use Rattle.heat_value.specs.Data.{Rises};
ghost use Rattle.hot_tree.specs.Parts.{ArePartsOf};
ghost use Rattle.hot_tree.specs.Readings.{entries};
ghost use Rattle.hot_tree.specs.Template.{IsRight, IsTemplateOf, IsFaultOf};
ghost use Rattle.hot_tree.specs.Whole.{template_flaw as the_template_flaw};

use crate::whole::template_flaw;
use crate::{HotFault, Parts};
use heat_value::{Props, TryCopy, Value};
use std::alloc::Global;
use std::marker::Model;

/// A template that holds none of the flaws H01 to H24, seen as its object, with its parts by type.
#[derive(Debug, Drop)]
pub struct Template {
    fields: Props,
    parts: Parts,
}

impl Model for Template {
    ghost use Rattle.std.specs.Prelude.{codes};
    ghost use Rattle.heat_value.specs.Data.{Members, Rises};
    ghost use Rattle.heat_value.specs.Code.{members_code};

    ghost Value = { Members };

    ghost coded = { members_code };

    ghost use Rattle.hot_tree.specs.Parts.{ArePartsOf};
    ghost use Rattle.hot_tree.specs.Readings.{entries};
    ghost use Rattle.hot_tree.specs.Template.{IsRight};

    ghost view = { λ t. t.fields };

    ghost invariant = { λ t. IsRight t.fields × ArePartsOf t.fields t.parts
        × Rises (entries (codes "resources") t.fields) };
}

impl Template {
    /// The template that a value is, or the first of its flaws.
    pub fn from_value(alloc: Global, value: &Value) -> Result<Template, HotFault>
        ensures ok { IfOk result (λ t. IsTemplateOf (data_of value.now) t) }
        ensures fault { IfErr result (λ e. IsFaultOf (data_of value.now) e) }
    {
        match template_flaw(alloc, value)? {
            Some(flaw) => Err(HotFault::Wrong(flaw)),
            None => kept(alloc, value),
        }
    }

    /// The template's object, which is right.
    pub fn fields(&self) -> &Props
        ensures value { result.now ≡ self.now }
        ensures right { IsRight self.now }
    {
        &self.fields
    }

    /// The parameters, conditions, resources and outputs that the object has. The resources come in byte
    /// order of their names.
    pub fn parts(&self) -> &Parts
        ensures exact { ArePartsOf self.now result.now }
        ensures right { IsRight self.now }
        ensures rising { Rises (entries (codes "resources") self.now) }
    {
        &self.parts
    }
}

// A copy of a right value, as a template.
fn kept(alloc: Global, value: &Value) -> Result<Template, HotFault>
    requires { the_template_flaw (data_of value.now) ≡ None }
    ensures ok { IfOk result (λ t. IsTemplateOf (data_of value.now) t) }
    ensures fault { IfErr result (λ e. e ≡ HotFault.Memory) }
{
    match value {
        Value::Fields(fields) => Ok(Template {
            parts: Parts::of(alloc, fields)?,
            fields: fields.copy()?,
        }),
        Value::Null | Value::Flag(_) | Value::Whole(_) | Value::Words(_) | Value::Items(_) => {
            unreachable!()
        }
    }
}
