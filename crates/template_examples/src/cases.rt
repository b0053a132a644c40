//! Tables of cases, in single quotes: what is given, and what is to be told of it. A table is gone through
//! once more where memory was wanted.
use heat_value::{Path, Value, ValueFault};
use hot_forms::Flaw;
use std::alloc::{AllocError, Global};
use std::process::Abort;

/// What is given, and what is to be told of it.
pub(crate) type Case = (&'static str, &'static str);

/// One that tells what comes of a text; it fails where memory was wanted.
pub(crate) trait Teller {
    fn told(&self, alloc: Global, given: &str) -> Result<String, AllocError>;
}

// The first case that is told otherwise, with what is told; nothing where each is as it is to be.
fn first_wrong<T: Teller>(alloc: Global, teller: &T, cases: &[Case]) -> Result<String, AllocError> {
    for case in cases {
        let told = teller.told(alloc, case.0)?;
        if told.as_str() != case.1 {
            return format!(in alloc; "{}: {}", case.0, told.as_str());
        }
    }
    Ok(String::new(alloc))
}

/// The same, once more where memory was wanted.
pub(crate) fn wrong_among<T: Teller>(
    alloc: Global,
    teller: &T,
    cases: &[Case],
) -> Result<String, AllocError> {
    match first_wrong(alloc, teller, cases) {
        Ok(wrong) => Ok(wrong),
        Err(_) => first_wrong(alloc, teller, cases),
    }
}

/// That each case is told as it is to be.
pub(crate) fn all_told<T: Teller>(
    rt: &(impl Abort + AllocGlobal),
    teller: &T,
    cases: &[Case],
) -> Result<(), AllocError> {
    let wrong = wrong_among(rt.alloc(), teller, cases)?;
    assert!(rt; wrong.is_empty(), "{wrong}");
    Ok(())
}

/// How many there are, and what is to be told of so many.
pub(crate) type Count = (usize, &'static str);

/// One that tells what comes of so many; it fails where memory was wanted.
pub(crate) trait Counter {
    fn told_of(&self, alloc: Global, count: usize) -> Result<String, AllocError>;
}

// What is told of so many, once more where memory was wanted.
fn counted<C: Counter>(alloc: Global, counter: &C, count: usize) -> Result<String, AllocError> {
    match counter.told_of(alloc, count) {
        Ok(told) => Ok(told),
        Err(_) => counter.told_of(alloc, count),
    }
}

/// That of each count is told what is to be told.
pub(crate) fn all_counted<C: Counter>(
    rt: &(impl Abort + AllocGlobal),
    counter: &C,
    counts: &[Count],
) -> Result<(), AllocError> {
    for count in counts {
        let told = counted(rt.alloc(), counter, count.0)?;
        assert!(rt; told.as_str() == count.1, "{}: {told}", count.0);
    }
    Ok(())
}

/// A text in single quotes, read; none where it is no value.
pub(crate) fn value_of(alloc: Global, text: &str) -> Result<Option<Value>, AllocError> {
    let text = text.replace(alloc, "'", "\"")?;
    match Value::read(alloc, text.as_bytes()) {
        Ok(value) => Ok(Some(value)),
        Err(ValueFault::Memory) => Err(AllocError),
        Err(_) => Ok(None),
    }
}

/// A value's text, in single quotes.
pub(crate) fn value_words(alloc: Global, value: &Value) -> Result<String, AllocError> {
    value.text(alloc)?.as_str().replace(alloc, "\"", "'")
}

/// A fault's code and path, in single quotes.
pub(crate) fn fault_words(alloc: Global, code: &str, path: &Path) -> Result<String, AllocError> {
    let path = path.text(alloc)?;
    format!(in alloc; "{code} {}", path.as_str())?.replace(alloc, "\"", "'")
}

/// A flaw's code and path; `right` where there is none.
pub(crate) fn flaw_words(alloc: Global, found: &Option<Flaw>) -> Result<String, AllocError> {
    match found {
        Some(flaw) => fault_words(alloc, flaw.code.text(), &flaw.path),
        None => String::from_str(alloc, "right"),
    }
}
