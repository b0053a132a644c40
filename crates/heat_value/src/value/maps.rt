//! Making and reading maps from texts to values. A key's place is found by binary search.
ghost use Rattle.std.specs.Prelude.{◌≡◌, ◌<◌, ◌≤◌, OnOk, OnErr, IfOk, IfErr, option_map, length};
ghost use Rattle.heat_value.specs.Data.{no_members, put, lookup, Rises};
ghost use Rattle.heat_value.specs.Meaning.{members_of};
ghost use Rattle.heat_value.specs.Places.{place};

use crate::{Member, Props, Text, Value};
use std::alloc::{AllocError, Global};

impl Props {
    ghost use Rattle.heat_value.specs.Meaning.{data_of};

    /// No member.
    pub fn new(alloc: Global) -> Props
        ensures { result ≡ no_members }
    {
        Props {
            members: Vec::new(alloc),
        }
    }

    /// The members, by rising keys.
    pub fn as_slice(&self) -> &[Member]
        ensures members { members_of result.now ≡ self.now }
        ensures rising { Rises self.now }
    {
        self.members.as_slice()
    }

    /// What stands under a key.
    pub fn get(&self, key: &Text) -> Option<&Value>
        ensures { option_map (λ v. data_of v.now) result ≡ lookup key.now self.now }
    {
        match place_of(&self.members, key) {
            Ok(at) => Some(&self.members[at].value),
            Err(_) => None,
        }
    }

    /// Puts a value under a key, in place of what stood there. A key above all others goes behind the
    /// last without moving any.
    pub fn put(&mut self, key: Text, value: Value) -> Result<(), AllocError>
        ensures ok { OnOk result (self.new ≡ put key (data_of value) self.old) }
        ensures err { OnErr result (self.new ≡ self.old) }
    {
        match place_of(&self.members, &key) {
            Ok(at) => {
                self.members[at] = Member { key, value };
                Ok(())
            }
            Err(at) => {
                self.members.insert(at, Member { key, value })?;
                Ok(())
            }
        }
    }
}

// Where a key stands, or else where it would go.
fn place_of(members: &Vec<Member>, key: &Text) -> Result<usize, usize>
    requires { Rises (members_of members.now.items) }
    ensures place { result ≡ place key.now members.now.items }
    ensures found { IfOk result (λ i. i < length members.now.items) }
    ensures room { IfErr result (λ i. i ≤ length members.now.items) }
{
    members.binary_search_by(|member| member.key.cmp(key))
}
