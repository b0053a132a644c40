//! Tables of cases: the name of each, what is asked, and what is to be told of it.
use heat_value::{Equals, Props, Text, TryCopy, Value};
use std::alloc::{AllocError, Global};
use std::process::Abort;

/// The name of a case, what is asked, and what is to be told of it.
pub(crate) type Case<A> = (&'static str, A, &'static str);

/// What can be asked; it fails where memory was wanted.
pub(crate) trait Asked: Copy {
    fn told(self, alloc: Global) -> Result<Text, AllocError>;
}

/// That each case is told as it is to be.
pub(crate) fn all_told<A: Asked>(
    rt: &(impl Abort + AllocGlobal),
    cases: &[Case<A>],
) -> Result<(), AllocError> {
    for (name, asked, want) in cases {
        let told = asked.told(rt.alloc())?;
        assert!(rt; told.as_str() == *want, "{name}: {}", told.as_str());
    }
    Ok(())
}

/// Whether a copy equals what it was made of.
pub(crate) fn is_copied<T: TryCopy + Equals + Drop>(it: &T) -> Result<bool, AllocError> {
    Ok(it.copy()?.equals(it))
}

/// Puts a value under a key.
pub(crate) fn put(
    alloc: Global,
    props: &mut Props,
    key: &str,
    value: Value,
) -> Result<(), AllocError> {
    props.put(Text::from_str(alloc, key)?, value)
}
