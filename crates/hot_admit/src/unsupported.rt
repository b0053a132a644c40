//! A08: what the language has and no plan can.
ghost use Rattle.std.specs.Prelude.{◌≡◌, IfOk, codes};
ghost use Rattle.heat_value.specs.Meaning.{data_of};
ghost use Rattle.hot_forms.specs.Shapes.{members_in};
ghost use Rattle.hot_functions.specs.Forms.{stands as the_stands};
ghost use Rattle.hot_admit.specs.Resources.{resource_data, output_data};
ghost use Rattle.hot_admit.specs.Unsupported.{is_left_out as the_is_left_out, is_snapshot as the_is_snapshot};
ghost use Rattle.hot_admit.specs.Unsupported.{is_empty as the_is_empty};
ghost use Rattle.hot_admit.specs.Unsupported.{is_unsupported as the_is_unsupported};
ghost use Rattle.hot_admit.specs.Unsupported.{unsupported_in_resource as the_unsupported_in_resource};
ghost use Rattle.hot_admit.specs.Unsupported.{unsupported_in_output as the_unsupported_in_output};

use crate::Sought;
use crate::sought::{place_in, place_there, place_under};
use heat_value::{Member, Path, Props, Value};
use hot_catalog::{behind_name, here_unless};
use hot_forms::is_among;
use hot_functions::stands;
use hot_tree::{Out, Res};
use std::alloc::{AllocError, Global};

// The functions that are left out, but for those that begin with `Fn::`.
const LEFT_OUT: [&str; 4] = ["yaql", "make_url", "resource_facade", "str_replace_vstrict"];

/// Whether an object with this one member is a function that is left out, or a repeat with
/// `permutations`.
pub fn is_unsupported(member: &Member) -> bool
    ensures { result ≡ the_is_unsupported member.now.key (data_of member.now.value) }
{
    if is_left_out(member.key.as_str()) {
        return true;
    }
    member.key.as_str() == "repeat" && holds_permutations(&member.value)
}

// Whether the key is that of a function that no plan has.
fn is_left_out(key: &str) -> bool
    ensures { result ≡ the_is_left_out key.now }
{
    is_among(&LEFT_OUT, key) || key.starts_with("Fn::")
}

// Whether an argument is an object with the key `permutations`.
fn holds_permutations(argument: &Value) -> bool
    ensures { result ≡ the_stands (codes "permutations") (members_in (data_of argument.now)) }
{
    match argument {
        Value::Fields(fields) => stands("permutations", fields.as_slice()),
        Value::Null | Value::Flag(_) | Value::Whole(_) | Value::Words(_) | Value::Items(_) => false,
    }
}

/// The first of a resource, by its keys in byte order.
pub fn unsupported_in_resource(alloc: Global, res: &Res) -> Result<Option<Path>, AllocError>
    ensures { IfOk result (λ o. o ≡ the_unsupported_in_resource (resource_data res.now)) }
{
    let condition = place_there(alloc, Sought::Unsupported, res.cond.as_ref())?;
    if condition.is_some() {
        return behind_name(alloc, "condition", condition);
    }
    if is_snapshot(res.policy.as_str()) {
        return behind_name(alloc, "deletion_policy", here_unless(alloc, false));
    }
    if res.external_id.is_some() {
        return behind_name(alloc, "external_id", here_unless(alloc, false));
    }
    let property = place_under(alloc, Sought::Unsupported, res.props.as_slice())?;
    if property.is_some() {
        return behind_name(alloc, "properties", property);
    }
    let empty = is_empty(&res.update_policy);
    behind_name(alloc, "update_policy", here_unless(alloc, empty))
}

// Whether an object has no member.
fn is_empty(map: &Props) -> bool
    ensures { result ≡ the_is_empty map.now }
{
    match map.as_slice() {
        [] => true,
        [_, ..] => false,
    }
}

// Whether a policy asks for a snapshot, in either spelling.
fn is_snapshot(policy: &str) -> bool
    ensures { result ≡ the_is_snapshot policy.now }
{
    is_among(&["Snapshot", "snapshot"], policy)
}

/// The first of an output.
pub fn unsupported_in_output(alloc: Global, out: &Out) -> Result<Option<Path>, AllocError>
    ensures { IfOk result (λ o. o ≡ the_unsupported_in_output (output_data out.now)) }
{
    let condition = place_there(alloc, Sought::Unsupported, out.cond.as_ref())?;
    if condition.is_some() {
        return behind_name(alloc, "condition", condition);
    }
    behind_name(
        alloc,
        "value",
        place_in(alloc, Sought::Unsupported, &out.value)?,
    )
}
