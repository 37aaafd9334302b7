//! What a policy says of a name.

ghost use Rattle.std.specs.Prelude.{◌≡◌};
ghost use Rattle.wh_policy.specs.Names.{slot_from, are_kept};

use crate::attribute::Attribute;

/// The slot, from 1, and the number of the type of the attribute with the name.
pub(crate) fn slot_from(attributes: &[Attribute], name: &str) -> Option<(usize, u8)>
    ensures { result ≡ slot_from 1 name.now attributes.now }
{
    for (i, attribute) in attributes.iter().enumerate() {
        if attribute.name.as_str() == name {
            return Some((i + 1, attribute.kind.number()));
        }
    }
    None
}

/// Whether the old names stand in the same slots; more may follow.
pub(crate) fn are_kept(old: &[Attribute], new: &[Attribute]) -> bool
    ensures { result ≡ are_kept old.now new.now }
{
    let [attribute, old @ ..] = old else {
        return true;
    };
    let [other, new @ ..] = new else {
        return false;
    };
    attribute.name.is_same(&other.name) && are_kept(old, new)
}
