ghost use Rattle.std.specs.Prelude.{◌≡◌, IfOk};
ghost use Rattle.sfx_script.specs.declared.line.Line.TheVariants as lines;

use crate::options::Options;
use crate::values::Values;
use sfx_ids::{ItemId, Memory, ReplicaId, Version};
use sfx_item::Value;
use sfx_model::{ClashRule, Keep};
use sfx_outside::Text;
use std::alloc::Global;

/// A line of a script. Its fields are the words of the line, in order; names of replicas have 1 to 32 letters,
/// digits and `_`, all ASCII.
#[derive(Drop)]
pub enum Line {
    /// Sets how many change units each item has.
    Units {
        n: u64,
    },
    /// Adds a plain replica.
    Replica {
        name: Text,
        id: ReplicaId,
    },
    /// Adds a replica that keeps its items as files.
    Files {
        name: Text,
        id: ReplicaId,
    },
    /// Creates an item with a value for each unit, 1 to 8 of them.
    Create {
        replica: Text,
        values: Values,
    },
    /// Writes a value to one unit of an item.
    Set {
        replica: Text,
        item: ItemId,
        unit: u64,
        value: Value,
    },
    /// Deletes an item.
    Delete {
        replica: Text,
        item: ItemId,
    },
    /// Cleans the tombstone of an item, or all of them where no item is named.
    Clean {
        replica: Text,
        item: Option<ItemId>,
    },
    /// Takes what was changed in the folder of a file replica.
    Scan {
        replica: Text,
    },
    /// Runs a session from the source to the destination.
    Sync {
        source: Text,
        destination: Text,
        keep: Keep,
        clash: ClashRule,
        options: Options,
    },
    /// Shows a replica.
    Show {
        replica: Text,
    },
    /// Asks whether a replica knows a version of a unit of an item.
    Knows {
        replica: Text,
        item: ItemId,
        unit: u64,
        version: Version,
    },
    /// Compares two replicas.
    Equal {
        first: Text,
        second: Text,
    },
}

impl Line {
    /// An equal line. The one error is running out of memory.
    pub fn copy(&self, alloc: Global) -> Result<Self, Memory>
        ensures { IfOk result (λ copy. copy ≡ self.now) }
    {
        match self {
            Line::Units { n } => Ok(Line::Units { n: *n }),
            Line::Replica { name, id } => Ok(Line::Replica {
                name: name.copy(alloc)?,
                id: *id,
            }),
            Line::Files { name, id } => Ok(Line::Files {
                name: name.copy(alloc)?,
                id: *id,
            }),
            Line::Create { replica, values } => create_copy(alloc, replica, values),
            Line::Set {
                replica,
                item,
                unit,
                value,
            } => set_copy(alloc, replica, *item, *unit, value),
            Line::Delete { replica, item } => Ok(Line::Delete {
                replica: replica.copy(alloc)?,
                item: *item,
            }),
            Line::Clean { replica, item } => Ok(Line::Clean {
                replica: replica.copy(alloc)?,
                item: *item,
            }),
            Line::Scan { replica } => Ok(Line::Scan {
                replica: replica.copy(alloc)?,
            }),
            Line::Sync {
                source,
                destination,
                keep,
                clash,
                options,
            } => {
                let (source, destination) = copies(alloc, source, destination)?;
                Ok(Line::Sync {
                    source,
                    destination,
                    keep: *keep,
                    clash: *clash,
                    options: *options,
                })
            }
            Line::Show { replica } => Ok(Line::Show {
                replica: replica.copy(alloc)?,
            }),
            Line::Knows {
                replica,
                item,
                unit,
                version,
            } => Ok(Line::Knows {
                replica: replica.copy(alloc)?,
                item: *item,
                unit: *unit,
                version: *version,
            }),
            Line::Equal { first, second } => {
                let (first, second) = copies(alloc, first, second)?;
                Ok(Line::Equal { first, second })
            }
        }
    }
}

/// A line that creates an item, of its own memory.
fn create_copy(alloc: Global, replica: &Text, values: &Values) -> Result<Line, Memory>
    ensures { IfOk result (λ copy. copy ≡ lines.Create replica.now values.now) }
{
    Ok(Line::Create {
        replica: replica.copy(alloc)?,
        values: values.copy(alloc)?,
    })
}

/// A line that writes a value, of its own memory.
fn set_copy(
    alloc: Global,
    replica: &Text,
    item: ItemId,
    unit: u64,
    value: &Value,
) -> Result<Line, Memory>
    ensures { IfOk result (λ copy. copy ≡ lines.Set replica.now item unit value.now) }
{
    Ok(Line::Set {
        replica: replica.copy(alloc)?,
        item,
        unit,
        value: value.copy(alloc)?,
    })
}

/// Two equal names of their own memory.
fn copies(alloc: Global, first: &Text, second: &Text) -> Result<(Text, Text), Memory>
    ensures { IfOk result (λ copies. copies ≡ (first.now, second.now)) }
{
    Ok((first.copy(alloc)?, second.copy(alloc)?))
}
