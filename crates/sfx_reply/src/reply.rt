ghost use Rattle.std.specs.Prelude.{◌≡◌, ◌++◌, IfOk, OnOk};
ghost use Rattle.sfx_reply.specs.declared.reply.Reply.TheVariants.{Changed, Compared, Created, Known, Refused};
ghost use Rattle.sfx_reply.specs.Reply.{reply_text, yes_or_no};

use crate::reason::Reason;
use crate::text::{append, newline};
use sfx_ids::{ItemId, Memory, Version, write_item, write_version};
use sfx_model::SessionEnd;
use std::alloc::Global;
use std::marker::Model;

/// A text of many lines, with their ends: it shows a replica, or tells what a session did.
#[derive(Drop)]
pub struct Listing {
    text: Vec<u8>,
}

impl Model for Listing {
    ghost use Rattle.std.specs.Prelude.{List, ℕ};

    ghost Value = { List ℕ };

    ghost view = { λ l. l.text.items };
}

impl Listing {
    pub fn new(text: Vec<u8>) -> Self
        ensures { result ≡ text.items }
    {
        Listing { text }
    }

    pub fn bytes(&self) -> &[u8]
        ensures { result.now ≡ self.now }
    {
        self.text.as_slice()
    }

    /// An equal listing of its own memory.
    ///
    /// # Errors
    /// `Memory`.
    pub fn copy(&self, alloc: Global) -> Result<Self, Memory>
        ensures { IfOk result (λ copy. copy ≡ self.now) }
    {
        Ok(Listing {
            text: Vec::from_slice(alloc, self.text.as_slice())?,
        })
    }
}

/// The reply to a line of a script.
#[derive(Drop)]
pub enum Reply {
    /// The line was accepted.
    Done,
    /// The item was created.
    Created(ItemId),
    /// The item was changed, and this is its new version.
    Changed(Version),
    /// Whether the replica knows the version.
    Known(bool),
    /// Whether two replicas know the same, and whether they hold the same live items.
    Compared { knowledge: bool, items: bool },
    /// What the replica holds.
    Shown(Listing),
    /// What the session did, batch by batch, and how it ended.
    Synced { report: Listing, end: SessionEnd },
    /// The line is refused.
    Refused(Reason),
}

impl Reply {
    ghost use Rattle.sfx_reply.specs.Reply.{is_refusal};

    /// Whether the line was refused, or its session ended for want of ticks.
    pub fn is_refusal(&self) -> bool
        ensures { result ≡ is_refusal self.now }
    {
        match self {
            Reply::Refused(_) => true,
            Reply::Synced { end, .. } => matches!(end, SessionEnd::Full(_)),
            _ => false,
        }
    }

    /// An equal reply of its own memory.
    ///
    /// # Errors
    /// `Memory`.
    pub fn copy(&self, alloc: Global) -> Result<Self, Memory>
        ensures { IfOk result (λ copy. copy ≡ self.now) }
    {
        match self {
            Reply::Done => Ok(Reply::Done),
            Reply::Created(item) => Ok(Reply::Created(*item)),
            Reply::Changed(version) => Ok(Reply::Changed(*version)),
            Reply::Known(known) => Ok(Reply::Known(*known)),
            Reply::Compared { knowledge, items } => {
                let (knowledge, items) = (*knowledge, *items);
                Ok(Reply::Compared { knowledge, items })
            }
            Reply::Shown(listing) => Ok(Reply::Shown(listing.copy(alloc)?)),
            Reply::Synced { report, end } => {
                let (report, end) = (report.copy(alloc)?, *end);
                Ok(Reply::Synced { report, end })
            }
            Reply::Refused(reason) => Ok(Reply::Refused(reason.copy(alloc)?)),
        }
    }

    /// Appends the text of the reply. The one error is running out of memory; a part may be appended then.
    pub fn write(&self, out: &mut Vec<u8>) -> Result<(), Memory>
        ensures { OnOk result (out.new.items ≡ out.old.items ++ reply_text self.now) }
    {
        match self {
            Reply::Done => append(out, b"ok\n"),
            Reply::Created(item) => write_created(out, item),
            Reply::Changed(version) => write_changed(out, version),
            Reply::Known(known) => write_known(out, *known),
            Reply::Compared { knowledge, items } => write_compared(out, *knowledge, *items),
            Reply::Shown(listing) => append(out, listing.bytes()),
            Reply::Synced { report, .. } => append(out, report.bytes()),
            Reply::Refused(reason) => write_refused(out, reason),
        }
    }
}

/// Appends that the item was created.
fn write_created(out: &mut Vec<u8>, item: &ItemId) -> Result<(), Memory>
    ensures { OnOk result (out.new.items ≡ out.old.items ++ reply_text (Created item.now)) }
{
    append(out, b"ok ")?;
    write_item(out, item)?;
    newline(out)
}

/// Appends that the item was changed, with its new version.
fn write_changed(out: &mut Vec<u8>, version: &Version) -> Result<(), Memory>
    ensures { OnOk result (out.new.items ≡ out.old.items ++ reply_text (Changed version.now)) }
{
    append(out, b"ok ")?;
    write_version(out, version)?;
    newline(out)
}

/// Appends whether the version is known.
fn write_known(out: &mut Vec<u8>, known: bool) -> Result<(), Memory>
    ensures { OnOk result (out.new.items ≡ out.old.items ++ reply_text (Known known)) }
{
    append(out, b"known=")?;
    write_answer(out, known)?;
    newline(out)
}

/// Appends whether the replicas know the same, and whether they hold the same live items.
fn write_compared(out: &mut Vec<u8>, knowledge: bool, items: bool) -> Result<(), Memory>
    ensures { OnOk result (out.new.items ≡ out.old.items ++ reply_text (Compared knowledge items)) }
{
    append(out, b"knowledge=")?;
    write_answer(out, knowledge)?;
    append(out, b" items=")?;
    write_answer(out, items)?;
    newline(out)
}

/// Appends that the line is refused, and why.
fn write_refused(out: &mut Vec<u8>, reason: &Reason) -> Result<(), Memory>
    ensures { OnOk result (out.new.items ≡ out.old.items ++ reply_text (Refused reason.now)) }
{
    append(out, b"no ")?;
    reason.write(out)?;
    newline(out)
}

/// Appends yes or no.
fn write_answer(out: &mut Vec<u8>, answer: bool) -> Result<(), Memory>
    ensures { OnOk result (out.new.items ≡ out.old.items ++ yes_or_no answer) }
{
    if answer {
        append(out, b"yes")
    } else {
        append(out, b"no")
    }
}
