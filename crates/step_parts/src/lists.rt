//! Short lists, and lists joined.
ghost use Rattle.std.specs.Prelude.{◌≡◌, ◌∷◌, ◌++◌, [], IfOk};

use core_state::Batch;
use heat_value::Seq;
use std::alloc::{AllocError, Global};

/// A list of one.
pub fn one<T: Drop>(alloc: Global, first: T) -> Result<Batch<T>, AllocError>
    ensures { IfOk result (λ b. b ≡ first ∷ []) }
{
    let mut all = Batch::new(alloc);
    all.push(first)?;
    Ok(all)
}

/// A list of two.
pub fn two<T: Drop>(alloc: Global, first: T, second: T) -> Result<Batch<T>, AllocError>
    ensures { IfOk result (λ b. b ≡ first ∷ second ∷ []) }
{
    let mut all = one(alloc, first)?;
    all.push(second)?;
    Ok(all)
}

/// A list of three.
pub fn three<T: Drop>(alloc: Global, first: T, second: T, third: T) -> Result<Batch<T>, AllocError>
    ensures { IfOk result (λ b. b ≡ first ∷ second ∷ third ∷ []) }
{
    let mut all = two(alloc, first, second)?;
    all.push(third)?;
    Ok(all)
}

/// The one before the others.
pub fn with_first<T: Drop>(alloc: Global, first: T, rest: Batch<T>) -> Result<Batch<T>, AllocError>
    ensures { IfOk result (λ b. b ≡ first ∷ rest) }
{
    with_last(one(alloc, first)?, rest)
}

/// The first ones before the last ones.
pub fn with_last<T: Drop>(first: Batch<T>, last: Batch<T>) -> Result<Batch<T>, AllocError>
    ensures { IfOk result (λ b. b ≡ first ++ last) }
{
    let mut all = first;
    for item in last.into_vec() {
        all.push(item)?;
    }
    Ok(all)
}

/// A short list of one.
pub fn seq_of_one<T: Drop>(alloc: Global, first: T) -> Result<Seq<T>, AllocError>
    ensures { IfOk result (λ s. s ≡ first ∷ []) }
{
    let mut all = Seq::new(alloc);
    all.push(first)?;
    Ok(all)
}

/// A short list of two.
pub fn seq_of_two<T: Drop>(alloc: Global, first: T, second: T) -> Result<Seq<T>, AllocError>
    ensures { IfOk result (λ s. s ≡ first ∷ second ∷ []) }
{
    let mut all = seq_of_one(alloc, first)?;
    all.push(second)?;
    Ok(all)
}
