//! What a cloud's trace keeps: each call with its answer, but for those that answered Memory.
use heat_plan::{Answered, Request, Token};
use heat_value::{Equals, TryCopy};
use std::alloc::AllocError;

/// How a listing ended; what it gave was the alive list of that moment.
#[derive(Clone, Copy, Debug, PartialEq, Eq)]
pub enum Listing {
    Got,
    Failed,
}

/// A call with its answer.
#[derive(Debug)]
pub enum Traced {
    Called(Token, Request, Answered),
    Listed(Listing),
}

impl Drop for Traced {
    fn drop(self) {
        match self {
            Traced::Called(_, _, _) => {}
            Traced::Listed(_) => {}
        }
    }
}

impl TryCopy for Traced {
    fn copy(&self) -> Result<Traced, AllocError> {
        match self {
            Traced::Called(token, request, answered) => Ok(Traced::Called(
                token.copy()?,
                request.copy()?,
                answered.copy()?,
            )),
            Traced::Listed(listing) => Ok(Traced::Listed(*listing)),
        }
    }
}

impl Equals for Traced {
    fn equals(&self, other: &Traced) -> bool {
        match (self, other) {
            (
                Traced::Called(token, request, answered),
                Traced::Called(its_token, its_request, its_answered),
            ) => {
                token.equals(its_token)
                    && request.equals(its_request)
                    && answered.equals(its_answered)
            }
            (Traced::Listed(listing), Traced::Listed(its_listing)) => *listing == *its_listing,
            _ => false,
        }
    }
}
