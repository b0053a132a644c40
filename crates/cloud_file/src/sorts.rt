//! Reading single values: texts, flags, numbers, maps and tokens.
ghost use Rattle.std.specs.Prelude.{◌≡◌, ◌≤◌, IfOk, IfErr, OnOk, None};
ghost use Rattle.serde_json.specs.Data.{depth};
ghost use Rattle.serde_json.specs.View.{view};
ghost use Rattle.heat_value.specs.Data.{fields, depth as data_depth};
ghost use Rattle.heat_value.specs.Compact.{json_of};
ghost use Rattle.heat_value.specs.Meaning.{data_of};
ghost use Rattle.heat_value.specs.Reading.{IsOfNumber, first_bad};
ghost use Rattle.heat_plan.specs.Tokens.{IsToken};
ghost use Rattle.sim_cloud.specs.Holding.{place_of};
ghost use Rattle.cloud_file.specs.Sorts.{IsFree, IsObject, ReadsText, ReadsFlag, ReadsNumber};
ghost use Rattle.cloud_file.specs.Sorts.{ReadsObject, ReadsMap, ReadsTokenText, ReadsToken};

use heat_plan::{Properties, Token};
use heat_value::{MAX_DEPTH, Path, Props, Text, TryCopy, Value, ValueFault, nests_within};
use serde_json::Value as Json;
use sim_cloud::Holdings;
use std::alloc::{AllocError, Global};

/// The text that a value is.
pub fn text(alloc: Global, value: &Json) -> Result<Result<Text, Path>, AllocError>
    ensures { IfOk result (λ r. ReadsText (view value.now) r) }
{
    match value {
        Json::String(text) => Ok(Ok(Text::from_str(alloc, text.as_str())?)),
        Json::Null | Json::Bool(_) | Json::Number(_) => Ok(Err(Path::root(alloc))),
        Json::Array(_) | Json::Object(_) => Ok(Err(Path::root(alloc))),
    }
}

/// The flag that a value is.
pub fn flag(alloc: Global, value: &Json) -> Result<bool, Path>
    ensures { ReadsFlag (view value.now) result }
{
    match value {
        Json::Bool(flag) => Ok(*flag),
        Json::Null | Json::String(_) | Json::Number(_) => Err(Path::root(alloc)),
        Json::Array(_) | Json::Object(_) => Err(Path::root(alloc)),
    }
}

/// The whole number from the least to the most that a value is.
pub fn number(alloc: Global, value: &Json, least: u64, most: u64) -> Result<u64, Path>
    ensures read { ReadsNumber least most (view value.now) result }
    ensures high { IfOk result (λ n. n ≤ most) }
{
    match value.as_u64() {
        Some(whole) => if least <= whole && whole <= most {
            Ok(whole)
        } else {
            Err(Path::root(alloc))
        },
        None => Err(Path::root(alloc)),
    }
}

/// The map that a value is.
pub fn map(alloc: Global, value: &Json) -> Result<Result<Properties, Path>, AllocError>
    ensures { IfOk result (λ r. ReadsMap (view value.now) r) }
{
    match value {
        Json::Object(_) => object(alloc, value),
        Json::Null | Json::Bool(_) | Json::Number(_) => Ok(Err(Path::root(alloc))),
        Json::String(_) | Json::Array(_) => Ok(Err(Path::root(alloc))),
    }
}

// The map that an object is.
fn object(alloc: Global, value: &Json) -> Result<Result<Properties, Path>, AllocError>
    requires { IsObject (view value.now) }
    ensures { IfOk result (λ r. ReadsObject (view value.now) r) }
{
    if !nests_within(value, MAX_DEPTH) {
        return Ok(Err(Path::root(alloc)));
    }
    match converted(alloc, value) {
        Ok(value) => Ok(Ok(properties(&value)?)),
        Err(ValueFault::BadNumber(path)) => Ok(Err(path)),
        Err(ValueFault::Memory) => Err(AllocError),
        Err(ValueFault::NotJson) => unreachable!(),
        Err(ValueFault::TooDeep) => unreachable!(),
    }
}

// The value of a reading that nests at most 64 deep: its text is read anew.
fn converted(alloc: Global, value: &Json) -> Result<Value, ValueFault>
    requires { depth (view value.now) ≤ 64 }
    ensures ok { IfOk result (λ v. json_of (data_of v) ≡ view value.now) }
    ensures shallow { IfOk result (λ v. data_depth (data_of v) ≤ 64) }
    ensures whole { OnOk result (first_bad (view value.now) ≡ None) }
    ensures err { IfErr result (λ e. IsOfNumber e (first_bad (view value.now))) }
{
    let text = value.to_vec(alloc)?;
    Value::read(alloc, &text)
}

// The properties that an object's value is, copied.
fn properties(value: &Value) -> Result<Properties, AllocError>
    requires object { IsObject (json_of (data_of value.now)) }
    requires shallow { data_depth (data_of value.now) ≤ 64 }
    ensures { IfOk result (λ p. data_of value.now ≡ fields p) }
{
    match value {
        Value::Fields(props) => Ok(shallow(props.copy()?)),
        Value::Null => unreachable!(),
        Value::Flag(_) => unreachable!(),
        Value::Whole(_) => unreachable!(),
        Value::Words(_) => unreachable!(),
        Value::Items(_) => unreachable!(),
    }
}

// Properties that nest at most 64 deep.
fn shallow(props: Props) -> Properties
    requires { data_depth (fields props) ≤ 64 }
    ensures { result ≡ props }
{
    match Properties::from_props(props) {
        Some(props) => props,
        None => unreachable!(),
    }
}

/// The token whose text a value is, where none of these resources has it.
pub fn token(
    alloc: Global,
    held: &Holdings,
    value: &Json,
) -> Result<Result<Token, Path>, AllocError>
    ensures read { IfOk result (λ r. ReadsToken held.now.all (view value.now) r) }
    ensures absent { IfOk result (λ r. IfOk r (λ t. place_of held.now.all t ≡ None)) }
{
    match value {
        Json::String(text) => token_of(alloc, held, text.as_str()),
        Json::Null | Json::Bool(_) | Json::Number(_) => Ok(Err(Path::root(alloc))),
        Json::Array(_) | Json::Object(_) => Ok(Err(Path::root(alloc))),
    }
}

// The token of a text, where none of these resources has it.
fn token_of(alloc: Global, held: &Holdings, text: &str) -> Result<Result<Token, Path>, AllocError>
    ensures read { IfOk result (λ r. ReadsTokenText held.now.all text.now r) }
    ensures absent { IfOk result (λ r. IfOk r (λ t. place_of held.now.all t ≡ None)) }
{
    match Token::read(alloc, text.as_bytes())? {
        Some(token) => Ok(free(alloc, held, token)),
        None => Ok(Err(Path::root(alloc))),
    }
}

// The token, where none of these resources has it.
fn free(alloc: Global, held: &Holdings, token: Token) -> Result<Token, Path>
    ensures read { IsFree held.now.all token result }
    ensures grammar { IsToken token }
{
    look(&token);
    match held.place_of(&token) {
        None => Ok(token),
        Some(_) => Err(Path::root(alloc)),
    }
}

// Looks at a token's parts, each of which is of its grammar.
fn look(token: &Token)
    ensures { IsToken token.now }
{
    let _row = token.row.get();
    let _stack = token.stack.as_str();
    let _name = token.name.as_str();
}
