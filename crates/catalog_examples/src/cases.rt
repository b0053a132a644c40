//! Tables of cases: what is asked, and what is to be told of it. Where memory was wanted, it is asked once more.
use heat_value::Value;
use std::alloc::{AllocError, Global};
use std::process::Abort;

/// What is asked, and what is to be told of it.
pub(crate) type Case<A> = (A, &'static str);

/// What can be asked; it fails where memory was wanted.
pub(crate) trait Asked: Copy {
    fn told(self, alloc: Global) -> Result<String, AllocError>;
}

/// That each case is told as it is to be.
pub(crate) fn all_told<A: Asked>(
    rt: &(impl Abort + AllocGlobal),
    cases: &[Case<A>],
) -> Result<(), AllocError> {
    for (place, case) in cases.iter().enumerate() {
        let told = told_in_the_end(rt.alloc(), case.0)?;
        assert!(rt; told.as_str() == case.1, "case {place}: {}", told.as_str());
    }
    Ok(())
}

fn told_in_the_end<A: Asked>(alloc: Global, asked: A) -> Result<String, AllocError> {
    match asked.told(alloc) {
        Ok(told) => Ok(told),
        Err(_) => asked.told(alloc),
    }
}

/// A text in single quotes, read; it fails where it is no value.
pub(crate) fn value_of(alloc: Global, text: &str) -> Result<Value, AllocError> {
    let text = text.replace(alloc, "'", "\"")?;
    match Value::read(alloc, text.as_bytes()) {
        Ok(value) => Ok(value),
        Err(_) => Err(AllocError),
    }
}
