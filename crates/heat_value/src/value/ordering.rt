//! How values are ordered.
ghost use Rattle.std.specs.Prelude.{◌≡◌, ◌↔◌};
ghost use Rattle.std.specs.Ordering.{nat_cmp, ordering_then};
ghost use Rattle.std.specs.Cmp.{IsTotalOrder};
ghost use Rattle.std.specs.declared.cmp.Ordering.TheVariants.{Equal};
ghost use Rattle.std.specs.Cmp.Lexicographic.{slice_cmp};
ghost use Rattle.heat_value.specs.Data.{Data};
ghost use Rattle.heat_value.specs.Order.{kind, value_cmp, nodes_cmp, members_cmp};

use crate::{Items, Member, Props, Value};
use std::cmp::Ordering;

impl Value {
    ghost use Rattle.heat_value.specs.Meaning.{data_of};

    // Where the value's kind stands among the kinds.
    fn kind(&self) -> u8
        ensures { result ≡ kind (data_of self.now) }
    {
        match self {
            Value::Null => 0,
            Value::Flag(_) => 1,
            Value::Whole(_) => 2,
            Value::Words(_) => 3,
            Value::Items(_) => 4,
            Value::Fields(_) => 5,
        }
    }

    /// How the value stands to another.
    #[cycle(order)]
    pub fn order(&self, other: &Value) -> Ordering
        ensures { result ≡ value_cmp (data_of self.now) (data_of other.now) }
    {
        match (self, other) {
            (Value::Null, Value::Null) => Ordering::Equal,
            (Value::Flag(mine), Value::Flag(its)) => mine.cmp(its),
            (Value::Whole(mine), Value::Whole(its)) => mine.cmp(its),
            (Value::Words(mine), Value::Words(its)) => mine.cmp(its),
            (Value::Items(mine), Value::Items(its)) => mine.order(its),
            (Value::Fields(mine), Value::Fields(its)) => mine.order(its),
            _ => self.kind().cmp(&other.kind()),
        }
    }
}

impl Items {
    // How the list stands to another: by the first item that differs.
    #[cycle(order)]
    fn order(&self, other: &Items) -> Ordering
        ensures { result ≡ nodes_cmp self.now other.now }
    {
        for i in 0..self.all.len() {
            let Some(its) = other.all.get(i) else {
                return Ordering::Greater;
            };
            match self.all[i].order(its) {
                Ordering::Equal => {}
                unequal => return unequal,
            }
        }
        self.all.len().cmp(&other.all.len())
    }
}

impl Member {
    ghost use Rattle.heat_value.specs.Meaning.{data_of};

    // How the member stands to another: by its key, and then by its value.
    #[cycle(order)]
    fn order(&self, other: &Member) -> Ordering
        ensures { result ≡ ordering_then (slice_cmp nat_cmp self.now.key other.now.key) (value_cmp (data_of self.now.value) (data_of other.now.value)) }
    {
        match self.key.cmp(&other.key) {
            Ordering::Equal => self.value.order(&other.value),
            unequal => unequal,
        }
    }
}

impl Props {
    // How the map stands to another: by the first member that differs.
    #[cycle(order)]
    fn order(&self, other: &Props) -> Ordering
        ensures { result ≡ members_cmp self.now other.now }
    {
        for i in 0..self.members.len() {
            let Some(its) = other.members.get(i) else {
                return Ordering::Greater;
            };
            match self.members[i].order(its) {
                Ordering::Equal => {}
                unequal => return unequal,
            }
        }
        self.members.len().cmp(&other.members.len())
    }
}

/// Values stand in a total order, in which exactly those that hold the same are equal.
pub fn values_are_ordered()
    ensures total { IsTotalOrder value_cmp }
    ensures exact { (d e : Data) → (value_cmp d e ≡ Equal) ↔ (d ≡ e) }
{}
