ghost use Rattle.std.specs.Prelude.{◌≡◌, ◌++◌, IfOk, OnOk};
ghost use Rattle.sfx_replica.specs.declared.edit_fault.EditFault.TheVariants.{Clash};
ghost use Rattle.sfx_reply.specs.declared.reason.Reason.TheVariants.{NoReplica};
ghost use Rattle.sfx_reply.specs.Reply.{fault_text, reason_text, session_text, with_number, with_numbers};

use crate::text::{append, write_number};
use sfx_ids::{ItemId, Memory, write_item};
use sfx_outside::Text;
use sfx_replica::EditFault;
use sfx_session::SessionFault;
use std::alloc::Global;

/// Why a line of a script is refused. Nothing has changed then.
#[derive(Drop)]
pub enum Reason {
    /// The bytes are no line: the least index at which they go wrong.
    Syntax(usize),
    /// The line is none of those that are built.
    NotBuilt,
    /// No items have this many units.
    BadUnits(u64),
    /// The unit count is set.
    UnitsSet,
    /// The unit count is not set.
    NoUnits,
    /// A replica has the name.
    NameTaken,
    /// A replica here has the id, or has heard of one that has.
    IdTaken,
    /// No replica has this name.
    NoReplica(Text),
    /// There are not as many values as items have units.
    BadCount { given: usize, units: usize },
    /// The replica refuses the edit.
    Edit(EditFault),
    /// The session is refused.
    Session(SessionFault),
}

impl Reason {
    /// An equal reason of its own memory.
    ///
    /// # Errors
    /// `Memory`.
    pub fn copy(&self, alloc: Global) -> Result<Self, Memory>
        ensures { IfOk result (λ copy. copy ≡ self.now) }
    {
        match self {
            Reason::Syntax(at) => Ok(Reason::Syntax(*at)),
            Reason::NotBuilt => Ok(Reason::NotBuilt),
            Reason::BadUnits(n) => Ok(Reason::BadUnits(*n)),
            Reason::UnitsSet => Ok(Reason::UnitsSet),
            Reason::NoUnits => Ok(Reason::NoUnits),
            Reason::NameTaken => Ok(Reason::NameTaken),
            Reason::IdTaken => Ok(Reason::IdTaken),
            Reason::NoReplica(name) => Ok(Reason::NoReplica(name.copy(alloc)?)),
            Reason::BadCount { given, units } => {
                let (given, units) = (*given, *units);
                Ok(Reason::BadCount { given, units })
            }
            Reason::Edit(fault) => Ok(Reason::Edit(*fault)),
            Reason::Session(fault) => Ok(Reason::Session(*fault)),
        }
    }

    /// Appends the text of the reason. The one error is running out of memory; a part may be appended then.
    pub fn write(&self, out: &mut Vec<u8>) -> Result<(), Memory>
        ensures { OnOk result (out.new.items ≡ out.old.items ++ reason_text self.now) }
    {
        match self {
            Reason::Syntax(at) => write_with_number(out, b"Syntax(", *at as u64),
            Reason::NotBuilt => append(out, b"NotBuilt"),
            Reason::BadUnits(n) => write_with_number(out, b"BadUnits(", *n),
            Reason::UnitsSet => append(out, b"UnitsSet"),
            Reason::NoUnits => append(out, b"NoUnits"),
            Reason::NameTaken => append(out, b"NameTaken"),
            Reason::IdTaken => append(out, b"IdTaken"),
            Reason::NoReplica(name) => write_no_replica(out, name),
            Reason::BadCount { given, units } => {
                write_with_numbers(out, b"BadCount(", *given as u64, *units as u64)
            }
            Reason::Edit(fault) => write_fault(out, fault),
            Reason::Session(fault) => write_session_fault(out, fault),
        }
    }
}

/// Appends that no replica has this name.
fn write_no_replica(out: &mut Vec<u8>, name: &Text) -> Result<(), Memory>
    ensures { OnOk result (out.new.items ≡ out.old.items ++ reason_text (NoReplica name.now)) }
{
    append(out, b"NoReplica(")?;
    append(out, name.as_str().as_bytes())?;
    append(out, b")")
}

/// Appends the text of the refusal of an edit.
fn write_fault(out: &mut Vec<u8>, fault: &EditFault) -> Result<(), Memory>
    ensures { OnOk result (out.new.items ≡ out.old.items ++ fault_text fault.now) }
{
    match fault {
        EditFault::NoItem => append(out, b"NoItem"),
        EditFault::Deleted => append(out, b"Deleted"),
        EditFault::BadUnit { k, u } => write_with_numbers(out, b"BadUnit(", *k as u64, *u as u64),
        EditFault::BadName(at) => write_with_number(out, b"BadName(", *at as u64),
        EditFault::Clash(item) => write_clash(out, item),
        EditFault::ClockFull(clock) => write_with_number(out, b"ClockFull(", *clock),
        EditFault::NotDeleted => append(out, b"NotDeleted"),
        EditFault::Memory => append(out, b"Memory"),
    }
}

/// Appends that the names clash, with the item that has the name.
fn write_clash(out: &mut Vec<u8>, item: &ItemId) -> Result<(), Memory>
    ensures { OnOk result (out.new.items ≡ out.old.items ++ fault_text (Clash item.now)) }
{
    append(out, b"Clash(")?;
    write_item(out, item)?;
    append(out, b")")
}

/// Appends the text of the refusal of a session.
fn write_session_fault(out: &mut Vec<u8>, fault: &SessionFault) -> Result<(), Memory>
    ensures { OnOk result (out.new.items ≡ out.old.items ++ session_text fault.now) }
{
    match fault {
        SessionFault::SameReplica => append(out, b"SameReplica"),
        SessionFault::Ahead { tick, clock } => write_with_numbers(out, b"Ahead(", *tick, *clock),
        SessionFault::NotBuilt => append(out, b"NotBuilt"),
        SessionFault::Source => append(out, b"Source"),
        SessionFault::Destination => append(out, b"Destination"),
        SessionFault::Memory => append(out, b"Memory"),
    }
}

/// Appends a word that opens a parenthesis, a number, and the closing parenthesis.
fn write_with_number(out: &mut Vec<u8>, word: &[u8], number: u64) -> Result<(), Memory>
    ensures { OnOk result (out.new.items ≡ out.old.items ++ with_number word.now number) }
{
    append(out, word)?;
    write_number(out, number)?;
    append(out, b")")
}

/// The same with two numbers, parted by a comma.
fn write_with_numbers(out: &mut Vec<u8>, word: &[u8], first: u64, second: u64) -> Result<(), Memory>
    ensures { OnOk result (out.new.items ≡ out.old.items ++ with_numbers word.now first second) }
{
    append(out, word)?;
    write_number(out, first)?;
    append(out, b",")?;
    write_number(out, second)?;
    append(out, b")")
}
