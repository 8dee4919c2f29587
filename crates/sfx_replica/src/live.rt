//! The live items of two replicas, compared.
ghost use Rattle.std.specs.Prelude.{◌≡◌, ◌≤◌, ◌↔◌, length, IsTrue};
ghost use Rattle.sfx_model.specs.members.Headline.{live_items};
ghost use Rattle.sfx_replica.specs.Live.{BeginsLive};

use sfx_item::{Item, State};

/// Whether both lists have the same live items, with the same ids, versions and values.
pub fn same_live<const U: usize>(ours: &[Item<U>], theirs: &[Item<U>]) -> bool
    ensures { IsTrue result ↔ (live_items ours.now ≡ live_items theirs.now) }
{
    let mut left = from_live(ours);
    let mut right = from_live(theirs);
    'pairs: while let (Some(our), Some(their)) = (left.first(), right.first()) {
        if !our.same(their) {
            return false;
        }
        left = from_live(&left[1..]);
        right = from_live(&right[1..]);
    }
    left.is_empty() && right.is_empty()
}

/// The items from the first live one on.
fn from_live<const U: usize>(items: &[Item<U>]) -> &[Item<U>]
    ensures same { live_items result.now ≡ live_items items.now }
    ensures begins { BeginsLive result.now }
    ensures within { length result.now ≤ length items.now }
{
    for (place, item) in items.iter().enumerate() {
        if let State::Live(_) = item.state {
            return &items[place..];
        }
    }
    &[]
}
