//! Members by their natural keys.

ghost use Rattle.std.specs.Prelude.{◌≡◌, ℕ, List, find, bytes_eq, IfOk};
ghost use Rattle.std.specs.BTreeMap.{get_by};
ghost use Rattle.std.specs.Cmp.Lexicographic.{slice_cmp};
ghost use Rattle.std.specs.Ordering.{nat_cmp};
ghost use Rattle.std.specs.Option.{option_copied};

use std::alloc::{AllocError, Global};
use std::collections::BTreeMap;
use wh_history::{Member, RenderedRows};

/// What has the natural key of a member.
pub(crate) trait HasNatural {
    ghost use Rattle.std.specs.Prelude.{ℕ, List};

    ghost name: { Self → List ℕ };

    /// The natural key.
    fn name(&self) -> &str
        ensures { result.now ≡ name self.now };
}

impl HasNatural for Member {
    ghost name = { λ m. m.natural };

    fn name(&self) -> &str {
        self.natural.as_str()
    }
}

impl HasNatural for RenderedRows<'_> {
    ghost name = { λ m. m.member.now.natural };

    fn name(&self) -> &str {
        self.member.name()
    }
}

/// What is named, by its natural key. Of two with one key the first counts.
pub(crate) fn by_natural<T: HasNatural>(
    alloc: Global,
    list: &[T],
) -> Result<BTreeMap<&str, &T>, AllocError>
    ensures { IfOk result (λ found. (natural : List ℕ) → option_copied (get_by (λ k. slice_cmp nat_cmp natural k.now) found) ≡ find (λ x. bytes_eq (T.name x) natural) list.now) }
{
    let mut found = BTreeMap::new(alloc);
    let mut left = list.len();
    while left > 0 {
        left -= 1;
        found.insert(list[left].name(), &list[left])?;
    }
    Ok(found)
}
