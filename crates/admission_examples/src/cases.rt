//! Tables of cases, in single quotes: what stands in a template, what is given beside it, and what is to be
//! told of both. A table is gone through once more where memory was wanted.
use std::alloc::{AllocError, Global};

/// The sections of a template besides its version, what is given beside it, and what is to be told.
pub(crate) type Case = (&'static str, &'static str, &'static str);

/// One that tells what comes of a template's sections and what is given beside them.
pub(crate) trait Teller {
    fn told(&self, alloc: Global, sections: &str, beside: &str) -> Result<String, AllocError>;
}

// The first case that is told otherwise, with what is told; nothing where each is as it is to be.
fn first_wrong<T: Teller>(alloc: Global, teller: &T, cases: &[Case]) -> Result<String, AllocError> {
    for case in cases {
        let told = teller.told(alloc, case.0, case.1)?;
        if told.as_str() != case.2 {
            return format!(in alloc; "{} {}: {}", case.0, case.1, told.as_str());
        }
    }
    Ok(String::new(alloc))
}

/// The same, once more where memory was wanted.
pub(crate) fn wrong_among<T: Teller>(
    alloc: Global,
    teller: &T,
    cases: &[Case],
) -> Result<String, AllocError> {
    match first_wrong(alloc, teller, cases) {
        Ok(wrong) => Ok(wrong),
        Err(_) => first_wrong(alloc, teller, cases),
    }
}
