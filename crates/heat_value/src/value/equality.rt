//! Whether two values hold the same.
use crate::{Equals, Items, Member, Props, Value};

impl Equals for Value {
    #[cycle(equal)]
    fn equals(&self, other: &Value) -> bool {
        match (self, other) {
            (Value::Null, Value::Null) => true,
            (Value::Flag(mine), Value::Flag(its)) => *mine == *its,
            (Value::Whole(mine), Value::Whole(its)) => *mine == *its,
            (Value::Words(mine), Value::Words(its)) => *mine == *its,
            (Value::Items(mine), Value::Items(its)) => mine.equals(its),
            (Value::Fields(mine), Value::Fields(its)) => mine.equals(its),
            _ => false,
        }
    }
}

impl Equals for Items {
    #[cycle(equal)]
    #[tactic(auto, using(crate::proofs::Sameness::for_equals))]
    fn equals(&self, other: &Items) -> bool {
        if self.all.len() != other.all.len() {
            return false;
        }
        for i in 0..self.all.len() {
            if !self.all[i].equals(&other.all[i]) {
                return false;
            }
        }
        true
    }
}

impl Equals for Member {
    #[cycle(equal)]
    fn equals(&self, other: &Member) -> bool {
        self.key == other.key && self.value.equals(&other.value)
    }
}

impl Equals for Props {
    #[cycle(equal)]
    #[tactic(auto, using(crate::proofs::Sameness::for_equals))]
    fn equals(&self, other: &Props) -> bool {
        if self.members.len() != other.members.len() {
            return false;
        }
        for i in 0..self.members.len() {
            if !self.members[i].equals(&other.members[i]) {
                return false;
            }
        }
        true
    }
}
