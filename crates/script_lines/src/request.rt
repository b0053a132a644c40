//! What the body of a create or update asks for.
ghost use Rattle.std.specs.Prelude.{◌≡◌, ◌≢◌, ◌≤◌, ◌∷◌, [], IfOk, IfErr, MatchOption, List, Some, codes};
ghost use Rattle.heat_value.specs.Data.{Data, Members, fields as fields_data, lookup, depth, members_depth};
ghost use Rattle.heat_value.specs.Meaning.{data_of};
ghost use Rattle.heat_value.specs.Reading.{IsReadAs};
ghost use Rattle.heat_value.specs.declared.path.Step.{Step as step_type};
ghost use Rattle.script_lines.specs.BodyKeys.{AreRight};
ghost use Rattle.script_lines.specs.Requested.{object_in, rollback_in, body_with, Gives, IsMisgiven};
ghost use Rattle.script_lines.specs.Requested.{IsNoValue, IsBodyText, IsNoBody};

use crate::Misread;
use crate::sort::first_wrong;
use heat_value::{Path, Props, Step, Text, TryCopy, Value, ValueFault};
use std::alloc::{AllocError, Global};
use std::marker::Model;

/// What a body gives: any value as its template, parameters, texts of files, and whether a failure
/// is rolled back.
#[derive(Debug)]
pub struct Body {
    template: Value,
    params: Props,
    files: Props,
    rollback: bool,
}

impl Drop for Body {
    fn drop(self) {
        let Body {
            template: _,
            params: _,
            files: _,
            rollback: _,
        } = self;
    }
}

impl Model for Body {
    ghost use Rattle.std.specs.Coded.{codes};
    ghost use Rattle.heat_value.specs.Code.{data_code, members_code};
    ghost use Rattle.script_lines.specs.Requested.{BodyData};

    ghost Value = { BodyData };

    ghost coded = { Prim.hlevel (codes, data_code, members_code) };

    ghost use Rattle.heat_value.specs.Meaning.{data_of};
    ghost use Rattle.script_lines.specs.Requested.{IsKept};

    ghost view = { λ b. record {
      template = data_of b.template;
      params = b.params;
      files = b.files;
      rollback = b.rollback;
    } };

    ghost invariant = { λ b. IsKept (data_of b.template) b.params b.files };
}

impl Body {
    ghost use Rattle.script_lines.specs.BodyKeys.{AreTexts};

    /// The template, of which nothing else is known yet.
    pub fn template(&self) -> &Value
        ensures value { data_of result.now ≡ self.now.template }
        ensures shallow { depth self.now.template ≤ 64 }
    {
        &self.template
    }

    /// The parameters that are given.
    pub fn params(&self) -> &Props
        ensures value { result.now ≡ self.now.params }
        ensures shallow { members_depth self.now.params ≤ 64 }
    {
        &self.params
    }

    /// The files by their names, each a text.
    pub fn files(&self) -> &Props
        ensures value { result.now ≡ self.now.files }
        ensures texts { AreTexts self.now.files }
    {
        &self.files
    }

    /// Whether a failure is rolled back.
    pub fn rollback(&self) -> bool
        ensures { result ≡ self.now.rollback }
    {
        self.rollback
    }
}

/// The body that bytes are read as.
pub fn body_of(alloc: Global, bytes: &[u8]) -> Result<Body, Misread>
    ensures ok { IfOk result (λ b. IsBodyText bytes.now b) }
    ensures fault { IfErr result (λ e. e ≢ Misread.Memory → IsNoBody bytes.now e) }
{
    let value = value_of(alloc, bytes)?;
    match fields_of(&value) {
        Some(members) => given(alloc, members),
        None => Err(Misread::L08(Path::root(alloc))),
    }
}

// The map that a value is.
fn fields_of(value: &Value) -> Option<&Props>
    ensures { MatchOption result ((ms : Members) → data_of value.now ≢ fields_data ms)
        (λ p. data_of value.now ≡ fields_data p.now) }
{
    match value {
        Value::Fields(fields) => Some(fields),
        Value::Null | Value::Flag(_) | Value::Whole(_) | Value::Words(_) | Value::Items(_) => None,
    }
}

/// The value that bytes are read as.
pub fn value_of(alloc: Global, bytes: &[u8]) -> Result<Value, Misread>
    ensures ok { IfOk result (λ v. IsReadAs bytes.now (data_of v)) }
    ensures fault { IfErr result (λ e. e ≢ Misread.Memory → IsNoValue bytes.now e) }
{
    match Value::read(alloc, bytes) {
        Ok(value) => Ok(value),
        Err(ValueFault::Memory) => Err(Misread::Memory),
        Err(ValueFault::NotJson) => Err(Misread::L06),
        Err(ValueFault::TooDeep) => Err(Misread::L07(Path::root(alloc))),
        Err(ValueFault::BadNumber(path)) => Err(Misread::L07(path)),
    }
}

// What a body's object gives.
fn given(alloc: Global, members: &Props) -> Result<Body, Misread>
    requires { members_depth members.now ≤ 64 }
    ensures ok { IfOk result (λ b. Gives members.now b) }
    ensures fault { IfErr result (λ e. e ≢ Misread.Memory
        → (p : List step_type) × IsMisgiven members.now p × (e ≡ Misread.L08 p)) }
{
    let Some(template) = members.get(&Text::from_str(alloc, "template")?) else {
        return Err(Misread::L08(Path::root(alloc)));
    };
    match first_wrong(members) {
        Some(key) => Err(Misread::L08(path_of(alloc, key)?)),
        None => Ok(with_template(alloc, template, members)?),
    }
}

// The path of a key at the root.
fn path_of(alloc: Global, key: &Text) -> Result<Path, AllocError>
    ensures { IfOk result (λ p. p ≡ Step.Key key.now ∷ []) }
{
    Path::root(alloc).under(Step::Key(key.copy()?))
}

// What an object that is right gives, whose template this is.
fn with_template(alloc: Global, template: &Value, members: &Props) -> Result<Body, AllocError>
    requires right { AreRight members.now }
    requires shallow { members_depth members.now ≤ 64 }
    requires template { depth (data_of template.now) ≤ 64 }
    ensures { IfOk result (λ b. b ≡ body_with (data_of template.now) members.now) }
{
    Ok(Body {
        template: template.copy()?,
        params: object_under(alloc, members, "parameters")?,
        files: object_under(alloc, members, "files")?,
        rollback: rolls_back(alloc, members)?,
    })
}

// A copy of the object under a key; without one an empty one.
fn object_under(alloc: Global, members: &Props, key: &str) -> Result<Props, AllocError>
    ensures { IfOk result (λ p. p ≡ object_in (lookup key.now members.now)) }
{
    match members.get(&Text::from_str(alloc, key)?) {
        Some(value) => object_of(alloc, value),
        None => Ok(Props::new(alloc)),
    }
}

// A copy of the object that a value is.
fn object_of(alloc: Global, value: &Value) -> Result<Props, AllocError>
    ensures { IfOk result (λ p. p ≡ object_in (Some (data_of value.now))) }
{
    match value {
        Value::Fields(fields) => fields.copy(),
        Value::Null | Value::Flag(_) | Value::Whole(_) | Value::Words(_) | Value::Items(_) => {
            Ok(Props::new(alloc))
        }
    }
}

// Whether a failure is rolled back.
fn rolls_back(alloc: Global, members: &Props) -> Result<bool, AllocError>
    ensures { IfOk result (λ b. b ≡ rollback_in (lookup (codes "disable_rollback") members.now)) }
{
    match members.get(&Text::from_str(alloc, "disable_rollback")?) {
        Some(value) => Ok(is_false(value)),
        None => Ok(false),
    }
}

// Whether a value is the flag false.
fn is_false(value: &Value) -> bool
    ensures { result ≡ rollback_in (Some (data_of value.now)) }
{
    match value {
        Value::Flag(flag) => !*flag,
        Value::Null | Value::Whole(_) | Value::Words(_) | Value::Items(_) | Value::Fields(_) => {
            false
        }
    }
}
