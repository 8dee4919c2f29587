ghost use Rattle.std.specs.Prelude.{◌≡◌, ◌≤◌, IfOk};
ghost use Rattle.std.specs.Option.{option_map};
ghost use Rattle.sfx_ids.specs.ItemId.{creation_of};
ghost use Rattle.sfx_model.specs.sessions.Class.{absent_change, class_of, present_change, unit_class, whole_change};
ghost use Rattle.sfx_model.specs.members.Readings.{knows_version};
ghost use Rattle.sfx_model.specs.world.Units.{each_unit};
ghost use Rattle.sfx_settle.specs.Class.{class_view};

use crate::known::{is_forgotten_within, is_unseen, is_unseen_at, knows_version};
use crate::{Class, UnitClass, UnitClasses};
use sfx_ids::{ItemId, Memory, UnitId};
use sfx_item::{Item, State};
use sfx_knowledge::{Forgotten, Knowledge};
use std::alloc::Global;

/// The class of a change at a destination that has the item so, or not at all; `known` is what it knows, its
/// own versions included, `forgotten` what it has forgotten, and `made_with` what the source knows.
///
/// The change is known where the destination knows it at every unit. Of an item that is absent it is taken
/// where the destination does not know the item's creation, and where the source knew all that was forgotten
/// here; else it is in conflict. An item that is live on both sides goes unit by unit. Any other change is
/// taken where the source knew the state here, and is in conflict where it did not.
///
/// # Errors
/// `Memory`.
#[tactic(auto, unfolding(sfx_model::specs::sessions::Class::class_of))]
pub fn classify<const U: usize>(
    alloc: Global,
    change: &Item<U>,
    made_with: &Knowledge<U>,
    local: Option<&Item<U>>,
    known: &Knowledge<U>,
    forgotten: &Forgotten,
) -> Result<Class<U>, Memory>
    requires { 1 ≤ U }
    ensures { IfOk result (λ class. class_view class ≡
        class_of U known.now made_with.now forgotten.now change.now
        (option_map (λ x. x.now.state) local.entry)) }
{
    if !is_unseen(known, &change.id, change) {
        return Ok(Class::Known);
    }
    match local {
        None => Ok(absent_change(&change.id, made_with, known, forgotten)),
        Some(local) => present_change(alloc, change, made_with, local, known),
    }
}

/// The class of a change of an item that the destination does not have.
fn absent_change<const U: usize>(
    id: &ItemId,
    made_with: &Knowledge<U>,
    known: &Knowledge<U>,
    forgotten: &Forgotten,
) -> Class<U>
    requires { 1 ≤ U }
    ensures { class_view result ≡ absent_change U known.now made_with.now forgotten.now id.now }
{
    if is_created(id, known) && !is_forgotten_within(forgotten, made_with, id) {
        Class::WholeConflict
    } else {
        Class::TakeWhole
    }
}

/// Whether the item's creation is known at its first unit.
fn is_created<const U: usize>(id: &ItemId, known: &Knowledge<U>) -> bool
    requires { 1 ≤ U }
    ensures { result ≡ knows_version known.now id.now 0 (creation_of id.now) }
{
    match UnitId::new(0) {
        None => false,
        Some(unit) => knows_version(known, id, unit, &id.creation()),
    }
}

/// The class of a change of an item that the destination has.
fn present_change<const U: usize>(
    alloc: Global,
    change: &Item<U>,
    made_with: &Knowledge<U>,
    local: &Item<U>,
    known: &Knowledge<U>,
) -> Result<Class<U>, Memory>
    ensures { IfOk result (λ class. class_view class ≡
        present_change U known.now made_with.now change.now.id change.now.state
        local.now.state) }
{
    match (&change.state, &local.state) {
        (State::Live(_), State::Live(_)) => {
            Ok(Class::Units(unit_classes(alloc, change, made_with, local, known)?))
        }
        _ => Ok(whole_change(&change.id, made_with, local)),
    }
}

/// The class of a change as a whole.
fn whole_change<const U: usize>(id: &ItemId, made_with: &Knowledge<U>, local: &Item<U>) -> Class<U>
    ensures { class_view result ≡ whole_change U made_with.now
        (record { id = id.now; state = local.now.state }) }
{
    if is_unseen(made_with, id, local) {
        Class::WholeConflict
    } else {
        Class::TakeWhole
    }
}

/// The class of each unit of an item that is live on both sides.
fn unit_classes<const U: usize>(
    alloc: Global,
    change: &Item<U>,
    made_with: &Knowledge<U>,
    local: &Item<U>,
    known: &Knowledge<U>,
) -> Result<UnitClasses<U>, Memory>
    ensures { IfOk result (λ classes. classes ≡
        each_unit U (unit_class known.now made_with.now change.now.id change.now.state
        local.now.state)) }
{
    let mut classes = Vec::with_capacity(alloc, U)?;
    for index in 0..U {
        let unit = UnitId::new(index).unwrap();
        classes.push(unit_class(change, made_with, local, known, unit))?;
    }
    Ok(UnitClasses::of(classes))
}

/// The class of a unit of an item that is live on both sides.
fn unit_class<const U: usize>(
    change: &Item<U>,
    made_with: &Knowledge<U>,
    local: &Item<U>,
    known: &Knowledge<U>,
    unit: UnitId<U>,
) -> UnitClass
    ensures { result ≡ unit_class known.now made_with.now change.now.id change.now.state
        local.now.state unit.entry }
{
    if !is_unseen_at(known, &change.id, change, unit) {
        UnitClass::Known
    } else if is_unseen_at(made_with, &change.id, local, unit) {
        UnitClass::Concurrent
    } else {
        UnitClass::Newer
    }
}
