//! Values under names. The first value of a name counts.

ghost use Rattle.std.specs.Prelude.{◌≡◌, ◌≢◌, ℕ, List, Some, None, IfOk, IfErr, OnErr, option_map};
ghost use Rattle.wh_memory_host.specs.Named.{named};

use std::alloc::{AllocError, Global};
use std::mem;

/// A value under a name.
#[derive(Drop)]
pub struct NamedValue<T: Drop> {
    /// The name.
    pub name: String,
    /// The value.
    pub value: T,
}

/// The value under a name.
pub fn find<'a, T: Drop>(all: &'a [NamedValue<T>], name: &str) -> Option<&'a T>
    ensures { option_map (λ value. value.now) result ≡ named all.now name.now }
{
    for item in all {
        if item.name.as_str() == name {
            return Some(&item.value);
        }
    }
    None
}

/// Puts a value in the place of the one under a name, and answers that; where there is none, hands the new one back.
pub fn replace<T: Drop>(all: &mut [NamedValue<T>], name: &str, value: T) -> Result<T, T>
    ensures replaced { IfOk result (λ was. (named all.old name.now ≡ Some was) × (named all.new name.now ≡ Some value)) }
    ensures back { IfErr result (λ back. (back ≡ value) × (named all.old name.now ≡ None) × (all.new ≡ all.old)) }
    ensures others { (other : List ℕ) → other ≢ name.now → named all.new other ≡ named all.old other }
{
    for item in all.iter_mut() {
        if item.name.as_str() == name {
            return Ok(mem::replace(&mut item.value, value));
        }
    }
    Err(value)
}

/// Adds a value after all.
pub fn add<T: Drop>(
    all: &mut Vec<NamedValue<T>>,
    alloc: Global,
    name: &str,
    value: T,
) -> Result<(), AllocError>
    ensures now { IfOk result (λ _. named all.old.items name.now ≡ None → named all.new.items name.now ≡ Some value) }
    ensures others { (other : List ℕ) → other ≢ name.now → named all.new.items other ≡ named all.old.items other }
    ensures not_added { OnErr result (all.new.items ≡ all.old.items) }
{
    let name = String::from_str(alloc, name)?;
    all.push(NamedValue { name, value })?;
    Ok(())
}

/// Puts a value under a name, in the place of the one that was there.
pub fn put<T: Drop>(
    all: &mut Vec<NamedValue<T>>,
    alloc: Global,
    name: &str,
    value: T,
) -> Result<(), AllocError>
    ensures now { IfOk result (λ _. named all.new.items name.now ≡ Some value) }
    ensures others { (other : List ℕ) → other ≢ name.now → named all.new.items other ≡ named all.old.items other }
    ensures not_put { OnErr result (all.new.items ≡ all.old.items) }
{
    match replace(all, name, value) {
        Ok(_) => Ok(()),
        Err(value) => add(all, alloc, name, value),
    }
}
