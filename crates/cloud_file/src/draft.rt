//! The fields of a resource, as far as they were read.
ghost use Rattle.std.specs.Prelude.{◌≡◌, ◌≤◌, IfOk, IfErr, None, Some, List};
ghost use Rattle.serde_json.specs.View.{view};
ghost use Rattle.sim_cloud.specs.declared.held.Held.{Held as held_type};
ghost use Rattle.sim_cloud.specs.Holding.{place_of};
ghost use Rattle.cloud_file.specs.Sorts.{ReadsNumber};

use crate::keys::{Field, field_of};
use crate::sorts::{flag, map, number, text, token};
use heat_plan::{Facts, Properties, Token};
use heat_value::{Path, Text};
use provider::Alive;
use serde_json::Value as Json;
use sim_cloud::{Held, Holdings};
use std::alloc::{AllocError, Global};

// The most polls that may be left.
const MOST_POLLS: u64 = 64;

/// What was read of a resource.
pub struct Draft {
    pub attrs: Option<Properties>,
    pub id: Option<Text>,
    pub kind: Option<Text>,
    pub leaving: Option<bool>,
    pub left: Option<u8>,
    pub props: Option<Properties>,
    pub ready: Option<bool>,
    pub token: Option<Token>,
}

impl Drop for Draft {
    fn drop(self) {
        let Draft {
            attrs: _,
            id: _,
            kind: _,
            leaving: _,
            left: _,
            props: _,
            ready: _,
            token: _,
        } = self;
    }
}

impl Draft {
    ghost use Rattle.cloud_file.specs.Entries.{TakesField, TakesMember, IsSafe, nothing, finished};

    /// Nothing was read.
    pub fn new() -> Draft
        ensures { result ≡ nothing }
    {
        Draft {
            attrs: None,
            id: None,
            kind: None,
            leaving: None,
            left: None,
            props: None,
            ready: None,
            token: None,
        }
    }

    /// Takes a member of a resource's object, behind the resources that are held; else the path of its
    /// fault.
    pub fn take(
        &mut self,
        alloc: Global,
        held: &Holdings,
        key: &str,
        value: &Json,
    ) -> Result<Option<Path>, AllocError>
        requires { IsSafe held.now.all self.old }
        ensures taken { IfOk result (λ fault.
            TakesMember held.now.all key.now (view value.now) self.old self.new fault) }
        ensures safe { IsSafe held.now.all self.new }
    {
        match field_of(key) {
            Some(field) => self.take_field(alloc, held, field, value),
            None => Ok(Some(Path::root(alloc))),
        }
    }

    // Takes a field.
    fn take_field(
        &mut self,
        alloc: Global,
        held: &Holdings,
        field: Field,
        value: &Json,
    ) -> Result<Option<Path>, AllocError>
        requires { IsSafe held.now.all self.old }
        ensures taken { IfOk result (λ fault.
            TakesField held.now.all field (view value.now) self.old self.new fault) }
        ensures safe { IsSafe held.now.all self.new }
    {
        match field {
            Field::Attrs => Ok(put(&mut self.attrs, map(alloc, value)?)),
            Field::Id => Ok(put(&mut self.id, text(alloc, value)?)),
            Field::Kind => Ok(put(&mut self.kind, text(alloc, value)?)),
            Field::Leaving => Ok(put(&mut self.leaving, flag(alloc, value))),
            Field::Left => Ok(put(&mut self.left, polls(alloc, value))),
            Field::Props => Ok(put(&mut self.props, map(alloc, value)?)),
            Field::Ready => Ok(put(&mut self.ready, flag(alloc, value))),
            Field::Token => Ok(put(&mut self.token, token(alloc, held, value)?)),
        }
    }

    /// The resource of all the fields; else the path of the fault.
    pub fn finish(self, alloc: Global) -> Result<Held, Path>
        ensures read { result ≡ finished self }
        ensures safe { (held : List held_type) → IsSafe held self → IfOk result (λ h.
            (place_of held h.what.token ≡ None) × (h.left ≤ 64)) }
    {
        let Draft {
            attrs,
            id,
            kind,
            leaving,
            left,
            props,
            ready,
            token,
        } = self;
        let Some(attrs) = attrs else {
            return Err(Path::root(alloc));
        };
        let Some(id) = id else {
            return Err(Path::root(alloc));
        };
        let Some(kind) = kind else {
            return Err(Path::root(alloc));
        };
        let Some(leaving) = leaving else {
            return Err(Path::root(alloc));
        };
        let Some(left) = left else {
            return Err(Path::root(alloc));
        };
        let Some(props) = props else {
            return Err(Path::root(alloc));
        };
        let Some(ready) = ready else {
            return Err(Path::root(alloc));
        };
        let Some(token) = token else {
            return Err(Path::root(alloc));
        };
        let facts = Facts { id, attrs };
        let what = Alive {
            token,
            kind,
            props,
            facts,
            ready,
        };
        Ok(Held {
            what,
            leaving,
            left,
        })
    }
}

// The polls that a value says are left.
fn polls(alloc: Global, value: &Json) -> Result<u8, Path>
    ensures read { ReadsNumber 0 64 (view value.now) result }
    ensures few { IfOk result (λ n. n ≤ 64) }
{
    match number(alloc, value, 0, MOST_POLLS) {
        Ok(left) => Ok(left as u8),
        Err(path) => Err(path),
    }
}

// Puts what was read into its place; else the path of the fault.
fn put<T: Drop>(place: &mut Option<T>, read: Result<T, Path>) -> Option<Path>
    ensures ok { IfOk read (λ x. (place.new ≡ Some x) × (result ≡ None)) }
    ensures err { IfErr read (λ p. (place.new ≡ place.old) × (result ≡ Some p)) }
{
    match read {
        Ok(it) => {
            *place = Some(it);
            None
        }
        Err(path) => Some(path),
    }
}
