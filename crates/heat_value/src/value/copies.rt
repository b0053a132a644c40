//! Copies of values, equal to what they were made from.
use crate::{Items, Member, Props, TryCopy, Value};
use std::alloc::AllocError;

impl TryCopy for Value {
    #[cycle(copies)]
    fn copy(&self) -> Result<Value, AllocError> {
        match self {
            Value::Null => Ok(Value::Null),
            Value::Flag(flag) => Ok(Value::Flag(*flag)),
            Value::Whole(whole) => Ok(Value::Whole(*whole)),
            Value::Words(words) => Ok(Value::Words(words.copy()?)),
            Value::Items(items) => Ok(Value::Items(items.copy()?)),
            Value::Fields(fields) => Ok(Value::Fields(fields.copy()?)),
        }
    }
}

impl TryCopy for Items {
    #[cycle(copies)]
    fn copy(&self) -> Result<Items, AllocError> {
        let mut all = Vec::with_capacity(*self.all.allocator(), self.all.len())?;
        for value in &self.all {
            all.push(value.copy()?)?;
        }
        Ok(Items { all })
    }
}

impl TryCopy for Member {
    #[cycle(copies)]
    fn copy(&self) -> Result<Member, AllocError> {
        Ok(Member {
            key: self.key.copy()?,
            value: self.value.copy()?,
        })
    }
}

impl TryCopy for Props {
    #[cycle(copies)]
    fn copy(&self) -> Result<Props, AllocError> {
        let mut members = Vec::with_capacity(*self.members.allocator(), self.members.len())?;
        for member in &self.members {
            members.push(member.copy()?)?;
        }
        Ok(Props { members })
    }
}
