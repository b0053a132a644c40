//! The resources that the cloud holds, each token at most once. None of these calls answers for the cloud.
ghost use Rattle.std.specs.Prelude.{◌≡◌, ◌<◌, ◌≤◌, ◌-◌, [], ◌∷◌, ◌++◌, Some, None, true, false};
ghost use Rattle.std.specs.Prelude.{OnOk, OnErr, length, slice_get, slice_set, remove};
ghost use Rattle.sim_cloud.specs.Holding.{IsHolding, place_of, whats};
ghost use Rattle.provider.specs.Cloud.{count_of};

use crate::held::Held;
use heat_plan::{Facts, Properties, Token};
use heat_value::{Seq, Text};
use std::alloc::{AllocError, Global};

/// A list of resources with distinct tokens and at most 64 polls left.
#[derive(Debug, Drop)]
pub struct Holdings {
    pub all: Seq<Held>,
    ghost fit: { IsHolding all },
}

impl Holdings {
    ghost use Rattle.sim_cloud.specs.declared.held.Held.{Held as held_type};

    /// No resource.
    pub fn new(alloc: Global) -> Holdings
        ensures { result.all ≡ [] }
    {
        Holdings {
            all: Seq::new(alloc),
        }
    }

    /// These resources.
    pub fn of(all: Seq<Held>) -> Holdings
        requires { IsHolding all }
        ensures { result.all ≡ all }
    {
        Holdings { all }
    }

    /// Where the token's resource stands.
    pub fn place_of(&self, token: &Token) -> Option<usize>
        ensures { result ≡ place_of self.now.all token.now }
    {
        self.all.as_slice().iter().position(|held| held.what.token.row == token.row
            && held.what.token == *token)
    }

    /// The resource at this place.
    pub fn get(&self, at: usize) -> &Held
        requires { at < length self.now.all }
        ensures { slice_get self.now.all at ≡ Some result.now }
    {
        &self.all.as_slice()[at]
    }

    /// How many resources of this kind are held.
    pub fn count_of(&self, kind: &Text) -> usize
        ensures { result ≡ count_of kind.now (whats self.now.all) }
    {
        let mut count = 0;
        for one in self.all.as_slice() {
            if one.what.kind == *kind {
                count += 1;
            }
        }
        count
    }

    /// Adds a resource whose token isn't held.
    #[tactic(auto, using(crate::proofs::Kept::holding_push))]
    pub fn add(&mut self, one: Held) -> Result<(), AllocError>
        requires absent { place_of self.old.all one.what.token ≡ None }
        requires few { one.left ≤ 64 }
        ensures ok { OnOk result (self.new.all ≡ self.old.all ++ one ∷ []) }
        ensures err { OnErr result (self.new.all ≡ self.old.all) }
    {
        self.all.push(one)
    }

    /// One poll less is left.
    #[tactic(auto, using(crate::proofs::Kept::holding_set))]
    pub fn lower(&mut self, at: usize)
        requires { at < length self.old.all }
        ensures { (h : held_type) → slice_get self.old.all at ≡ Some h →
            self.new.all ≡ slice_set self.old.all at (record h { left = h.left - 1 }) }
    {
        let one = self.all.item_mut(at);
        one.left = one.left.saturating_sub(1);
    }

    /// The resource is ready with these facts, and no polls are left.
    #[tactic(auto, using(crate::proofs::Kept::holding_set))]
    pub fn mark_ready(&mut self, at: usize, facts: Facts)
        requires { at < length self.old.all }
        ensures { (h : held_type) → slice_get self.old.all at ≡ Some h →
            self.new.all ≡ slice_set self.old.all at (record h {
              what = record h.what { facts = facts; ready = true };
              left = 0;
            }) }
    {
        let one = self.all.item_mut(at);
        one.what.facts = facts;
        one.what.ready = true;
        one.left = 0;
    }

    /// The resource is leaving, with so many polls left.
    #[tactic(auto, using(crate::proofs::Kept::holding_set))]
    pub fn send_away(&mut self, at: usize, left: u8)
        requires at { at < length self.old.all }
        requires few { left ≤ 64 }
        ensures { (h : held_type) → slice_get self.old.all at ≡ Some h →
            self.new.all ≡ slice_set self.old.all at (record h { leaving = true; left = left }) }
    {
        let one = self.all.item_mut(at);
        one.leaving = true;
        one.left = left;
    }

    /// The resource has these properties and facts, isn't ready, and has so many polls left.
    #[tactic(auto, using(crate::proofs::Kept::holding_set))]
    pub fn set(&mut self, at: usize, props: Properties, facts: Facts, left: u8)
        requires at { at < length self.old.all }
        requires few { left ≤ 64 }
        ensures { (h : held_type) → slice_get self.old.all at ≡ Some h →
            self.new.all ≡ slice_set self.old.all at (record h {
              what = record h.what { props = props; facts = facts; ready = false };
              left = left;
            }) }
    {
        let one = self.all.item_mut(at);
        one.what.props = props;
        one.what.facts = facts;
        one.what.ready = false;
        one.left = left;
    }

    /// The resource is held no more.
    #[tactic(auto, using(crate::proofs::Kept::holding_remove))]
    pub fn let_go(&mut self, at: usize)
        requires { at < length self.old.all }
        ensures { self.new.all ≡ remove self.old.all at }
    {
        let _gone = self.all.remove(at);
    }
}
