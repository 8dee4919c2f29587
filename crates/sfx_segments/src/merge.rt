ghost use Rattle.std.specs.Prelude.{◌≡◌, ◌↔◌, Some, IsTrue, IfOk, OnOk};
ghost use Rattle.sfx_ids.specs.declared.cut.Cut.TheVariants.{Start};
ghost use Rattle.sfx_segments.specs.Segments.{IsPlace};
ghost use Rattle.sfx_segments.specs.Merge.{start_of, earlier, passed, last_value, ArePrefix, Extends, AreJoined};

use crate::join::Join;
use sfx_ids::{Cut, Memory, Part};
use std::alloc::Global;

/// The segments that have at every place what is made of the values of both lists there. One pass over
/// both.
pub fn merged<A, B, C: Part, J: Join<A, B, C>>(
    alloc: Global,
    xs: &[(Cut, A)],
    ys: &[(Cut, B)],
    how: &J,
) -> Result<Vec<(Cut, C)>, Memory>
    requires left { start_of xs.now ≡ Start }
    requires right { start_of ys.now ≡ Start }
    ensures { IfOk result (λ out. AreJoined (J.meaning how.now) xs.now ys.now out.items) }
{
    let (mut a, mut left) = (&xs[0].1, xs);
    let (mut b, mut right) = (&ys[0].1, ys);
    let mut items = Vec::new(alloc);
    let mut next = next_place(left, right);
    'merge: while next != Cut::End {
        (a, left) = pass(a, left, &next);
        (b, right) = pass(b, right, &next);
        let value = how.join(alloc, a, b)?;
        push_segment(&mut items, next, value)?;
        next = next_place(left, right);
    }
    Ok(items)
}

/// Where the next segment of either list begins, and `End` where there is none.
fn next_place<A, B>(left: &[(Cut, A)], right: &[(Cut, B)]) -> Cut
    ensures { result ≡ earlier (start_of left.now) (start_of right.now) }
{
    let a = first_place(left);
    let b = first_place(right);
    if a <= b { a } else { b }
}

/// Where the first of the segments begins, and `End` where there is none.
fn first_place<A>(segments: &[(Cut, A)]) -> Cut
    ensures { result ≡ start_of segments.now }
{
    match segments {
        [first, ..] => first.0,
        [] => Cut::End,
    }
}

/// The value at the place and the segments that begin behind it.
fn pass<'a, A>(value: &'a A, ahead: &'a [(Cut, A)], place: &Cut) -> (&'a A, &'a [(Cut, A)])
    ensures { (result.0.now, result.1.now) ≡ passed value.now ahead.now place.now }
{
    let mut value = value;
    let mut ahead = ahead;
    'walk: while let [first, behind @ ..] = ahead {
        if *place < first.0 {
            break;
        }
        value = &first.1;
        ahead = behind;
    }
    (value, ahead)
}

/// Puts a value behind the segments, from the place on, unless it repeats the last.
fn push_segment<T: Part>(items: &mut Vec<(Cut, T)>, place: Cut, value: T) -> Result<(), Memory>
    requires prefix { ArePrefix items.old.items place }
    requires place { IsPlace place }
    ensures { OnOk result (Extends items.old.items items.new.items place value) }
{
    if repeats(items.as_slice(), &value) {
        return Ok(());
    }
    items.push((place, value))?;
    Ok(())
}

/// Whether the value is that of the last segment.
fn repeats<T: Part>(items: &[(Cut, T)], value: &T) -> bool
    ensures { IsTrue result ↔ (last_value items.now ≡ Some value.now) }
{
    match items.last() {
        Some(last) => last.1.same(value),
        None => false,
    }
}
