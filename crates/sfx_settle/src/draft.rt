ghost use Rattle.std.specs.Prelude.{◌≡◌, IfOk};
ghost use Rattle.std.specs.Option.{option_map};
ghost use Rattle.sfx_model.specs.sessions.Draft.{all_marked};

use crate::{Mark, PerUnit};
use sfx_ids::Memory;
use sfx_item::Value;
use std::alloc::Global;
use std::marker::Model;

/// A mark for each of the `U` units of an item.
pub type Marks<const U: usize> = PerUnit<Mark, U>;

/// What an entry is to do with its item: a mark for each unit, and the values of a live result. There are no
/// values where the result is no live item, and where every unit is left alone.
#[derive(Drop)]
pub struct Draft<const U: usize> {
    pub marks: Marks<U>,
    pub values: Option<Vec<Value>>,
}

impl<const U: usize> Model for Draft<U> {
    ghost use Rattle.std.specs.Option.{option_map};
    ghost use Rattle.sfx_model.specs.sessions.Draft.{DraftData};

    ghost Value = { DraftData };

    ghost view = { λ d. record { marks = d.marks; values = option_map (λ v. v.items) d.values } };
}

impl<const U: usize> Draft<U> {
    /// This mark at every unit, and these values.
    ///
    /// # Errors
    /// `Memory`.
    pub fn all(alloc: Global, mark: Mark, values: Option<Vec<Value>>) -> Result<Self, Memory>
        ensures { IfOk result (λ draft. draft ≡ all_marked U mark (option_map (λ v. v.items) values)) }
    {
        Ok(Draft {
            marks: Marks::all(alloc, mark)?,
            values,
        })
    }

    /// An equal draft of its own memory.
    ///
    /// # Errors
    /// `Memory`.
    pub fn copy(&self, alloc: Global) -> Result<Self, Memory>
        ensures { IfOk result (λ copied. copied ≡ self.now) }
    {
        let marks = self.marks.copy(alloc)?;
        let values = match &self.values {
            None => None,
            Some(values) => Some(copied(alloc, values.as_slice())?),
        };
        Ok(Draft { marks, values })
    }
}

/// Equal values of their own memory.
fn copied(alloc: Global, values: &[Value]) -> Result<Vec<Value>, Memory>
    ensures { IfOk result (λ copied. copied.items ≡ values.now) }
{
    let mut copied = Vec::with_capacity(alloc, values.len())?;
    for value in values {
        copied.push(value.copy(alloc)?)?;
    }
    Ok(copied)
}
