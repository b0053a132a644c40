//! Resources by their names and members by their keys, found by binary search.
ghost use Rattle.std.specs.Prelude.{◌≡◌, ◌<◌, IfOk, length, option_map};
ghost use Rattle.heat_plan.specs.Order.{Rising};
ghost use Rattle.heat_value.specs.Data.{Rises};
ghost use Rattle.heat_value.specs.Meaning.{members_of};
ghost use Rattle.heat_value.specs.Places.{place};
ghost use Rattle.hot_admit.specs.Basis.{resource_named};
ghost use Rattle.hot_admit.specs.Resources.{resource_data, resources_data, names_of};

use heat_value::{Member, Text};
use hot_tree::Res;

/// The resource of this name among those that stand in byte order of their names.
pub(crate) fn resource_of<'a>(resources: &'a [Res], name: &Text) -> Option<&'a Res>
    requires { Rising (names_of (resources_data resources.now)) }
    ensures { option_map (λ r. resource_data r.now) result ≡ resource_named (resources_data resources.now) name.now }
{
    match resources.binary_search_by(|res| res.name.cmp(name)) {
        Ok(place) => Some(&resources[place]),
        Err(_) => None,
    }
}

/// The place of the member of this key among those that stand in byte order of their keys, or else where
/// it would go.
pub(crate) fn place_of(members: &[Member], key: &Text) -> Result<usize, usize>
    requires { Rises (members_of members.now) }
    ensures place { result ≡ place key.now members.now }
    ensures found { IfOk result (λ i. i < length members.now) }
{
    members.binary_search_by(|member| member.key.cmp(key))
}
