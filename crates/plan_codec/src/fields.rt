//! Maps of members that were read one by one.
ghost use Rattle.std.specs.Prelude.{◌≡◌, ◌↔◌, IsTrue, IfOk, IfErr};
ghost use Rattle.heat_value.specs.Data.{Rises};
ghost use Rattle.heat_value.specs.Meaning.{members_of};

use crate::unread::Unread;
use heat_value::{Member, Props};
use std::alloc::{AllocError, Global};
use std::cmp::Ordering;

/// The map of the members; none where their keys don't rise.
pub(crate) fn rising_map(alloc: Global, members: Vec<Member>) -> Result<Props, Unread>
    ensures ok { IfOk result (λ p. (p ≡ members_of members.items) × Rises (members_of members.items)) }
    ensures err { IfErr result (λ e. e ≡ Unread.Unspelled → ¬ Rises (members_of members.items)) }
{
    if !keys_rise(&members) {
        return Err(Unread::Unspelled);
    }
    let map = map_of(alloc, members)?;
    Ok(map)
}

// Whether each key is below the one behind it.
fn keys_rise(members: &[Member]) -> bool
    ensures { IsTrue result ↔ Rises (members_of members.now) }
{
    for i in 1..members.len() {
        if members[i - 1].key.cmp(&members[i].key) != Ordering::Less {
            return false;
        }
    }
    true
}

// The map of members whose keys rise.
fn map_of(alloc: Global, members: Vec<Member>) -> Result<Props, AllocError>
    requires { Rises (members_of members.items) }
    ensures { IfOk result (λ p. p ≡ members_of members.items) }
{
    let mut props = Props::new(alloc);
    for member in members {
        props.put(member.key, member.value)?;
    }
    Ok(props)
}
