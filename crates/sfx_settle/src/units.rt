ghost use Rattle.std.specs.Prelude.{◌≡◌, IfOk, List, length, map, unwrap_or, slice_get};
ghost use Rattle.std.specs.List.{list_all};
ghost use Rattle.sfx_model.specs.sessions.Draft.{is_left, unit_mark, unit_marks, unit_value, unit_values, units_draft, value_in};
ghost use Rattle.sfx_settle.specs.Rules.{rules_view};

use crate::{Draft, Keep, Mark, Marks, Merger, Rules, UnitClass, UnitClasses};
use sfx_ids::{Memory, UnitId};
use sfx_item::{Row, Value};
use std::alloc::Global;

/// The draft of an item that is live on both sides, unit by unit: a known unit stays, a newer one is taken,
/// and one in conflict gets the source's, the destination's or the merged value, or is left alone.
///
/// # Errors
/// `Memory`.
pub fn settle_units<const U: usize, M: Merger>(
    alloc: Global,
    change: &Row<U>,
    local: &Row<U>,
    classes: &UnitClasses<U>,
    rules: &Rules<M>,
) -> Result<Draft<U>, Memory>
    ensures { IfOk result (λ draft. draft ≡
        units_draft U (rules_view M.meaning rules.now) classes.now change.now local.now) }
{
    let marks = marks_of(alloc, classes, rules.keep)?;
    if all_left(&marks) {
        return Ok(Draft {
            marks,
            values: None,
        });
    }
    let values = values_of(alloc, change, local, classes, rules)?;
    Ok(Draft {
        marks,
        values: Some(values),
    })
}

/// The marks of units of these classes.
fn marks_of<const U: usize>(
    alloc: Global,
    classes: &UnitClasses<U>,
    keep: Keep,
) -> Result<Marks<U>, Memory>
    ensures { IfOk result (λ marks. marks ≡ unit_marks keep classes.now) }
{
    let mut marks = Vec::with_capacity(alloc, U)?;
    for class in classes.as_slice() {
        marks.push(mark_of(keep, *class))?;
    }
    Ok(Marks::of(marks))
}

/// The mark of a unit of this class.
fn mark_of(keep: Keep, class: UnitClass) -> Mark
    ensures { result ≡ unit_mark keep class }
{
    match (class, keep) {
        (UnitClass::Known, _) => Mark::Stays,
        (UnitClass::Newer, _) => Mark::Taken,
        (UnitClass::Concurrent, Keep::Skip) => Mark::Left,
        (UnitClass::Concurrent, _) => Mark::Stamped,
    }
}

/// Whether every unit is left alone.
fn all_left<const U: usize>(marks: &Marks<U>) -> bool
    ensures { result ≡ list_all is_left marks.now }
{
    marks
        .as_slice()
        .iter()
        .all(|mark| matches!(mark, Mark::Left))
}

/// The values of units of these classes.
fn values_of<const U: usize, M: Merger>(
    alloc: Global,
    change: &Row<U>,
    local: &Row<U>,
    classes: &UnitClasses<U>,
    rules: &Rules<M>,
) -> Result<Vec<Value>, Memory>
    ensures { IfOk result (λ values. values.items ≡
        unit_values U (rules_view M.meaning rules.now) classes.now change.now local.now) }
{
    let mut values = Vec::with_capacity(alloc, U)?;
    for index in 0..U {
        let unit = UnitId::new(index).unwrap();
        let class = classes.get(unit);
        let source = &change.cell(unit).value;
        let destination = &local.cell(unit).value;
        values.push(value_of(alloc, index, class, source, destination, rules)?)?;
    }
    Ok(values)
}

/// The value of a unit of this class.
fn value_of<M: Merger>(
    alloc: Global,
    unit: usize,
    class: UnitClass,
    source: &Value,
    destination: &Value,
    rules: &Rules<M>,
) -> Result<Value, Memory>
    ensures { IfOk result (λ value. value ≡
        unit_value (rules_view M.meaning rules.now) unit class source.now destination.now) }
{
    match (class, rules.keep) {
        (UnitClass::Known, _) | (UnitClass::Concurrent, Keep::Destination | Keep::Skip) => {
            destination.copy(alloc)
        }
        (UnitClass::Newer, _) | (UnitClass::Concurrent, Keep::Source) => source.copy(alloc),
        (UnitClass::Concurrent, Keep::Merge) => {
            rules.merger.merge(alloc, unit, source, destination)
        }
    }
}
