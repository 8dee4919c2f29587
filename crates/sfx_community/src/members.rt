ghost use Rattle.std.specs.Prelude.{◌≡◌, ◌≤◌, ◌∷◌, ◌++◌, false, slice_get, IfOk, OnOk, OnErr, option_map};
ghost use Rattle.std.specs.Option.{option_map_or};
ghost use Rattle.sfx_script.specs.Limits.{AreWithinLimits, IsLimited};
ghost use Rattle.sfx_reply.specs.declared.reply.Reply.TheVariants.{Synced};
ghost use Rattle.sfx_reply.specs.Report.{report_text};
ghost use Rattle.sfx_community.specs.Turn.{create_turn, delete_turn, equal_turn, is_units, knows_turn, replica_turn, session_turn, set_turn, show_turn, sync_turn, turn_of};

use crate::comparing::know_same;
use crate::kept::Kept;
use crate::meeting::{Meeting, meet};
use crate::refusing::{is_built, no_replica, refusal, session_refusal};
use indexmap::IndexMap;
use sfx_ids::{ItemId, Memory, ReplicaId, UnitId, Version};
use sfx_item::Value;
use sfx_model::{ClashRule, Keep};
use sfx_outside::Text;
use sfx_replica::{EditFault, Replica};
use sfx_reply::{Reason, Reply, listing, told};
use sfx_script::{Line, Options, Values};
use std::alloc::Global;
use std::marker::Model;

/// The replicas that a script works on, by name and in the order in which they were added. Their items
/// have `U` change units.
#[derive(Drop)]
pub(crate) struct Members<const U: usize> {
    kept: IndexMap<Text, Kept<U>>,
}

impl<const U: usize> Model for Members<U> {
    ghost use Rattle.std.specs.Prelude.{List};
    ghost use Rattle.sfx_community.specs.State.{KeptMember, members_view};

    ghost Value = { List KeptMember };

    ghost view = { λ m. members_view m.kept.entries };
}

impl<const U: usize> Members<U> {
    ghost use Rattle.std.specs.Prelude.{[]};
    ghost use Rattle.sfx_model.specs.sessions.MemberKnowledge.{names_id};
    ghost use Rattle.sfx_community.specs.State.{has_name, is_id_taken, kept_as, member_of, members_with, state_among};

    /// There is no replica.
    pub(crate) fn new(alloc: Global) -> Self
        ensures { result ≡ [] }
    {
        Members {
            kept: IndexMap::new(alloc),
        }
    }

    /// Equal replicas of their own memory.
    ///
    /// # Errors
    /// `Memory`.
    pub(crate) fn copy(&self, alloc: Global) -> Result<Self, Memory>
        ensures { IfOk result (λ copy. copy ≡ self.now) }
    {
        let mut copied = Members::new(alloc);
        for i in 0..self.kept.len() {
            if let Some((name, kept)) = self.kept.get_index(i) {
                copied.push(name.copy(alloc)?, kept.copy(alloc)?)?;
            }
        }
        Ok(copied)
    }

    /// Adds a replica, whose name is new, behind the others.
    fn push(&mut self, name: Text, kept: Kept<U>) -> Result<(), Memory>
        requires new { has_name name self.old ≡ false }
        ensures { OnOk result (self.new ≡ self.old ++ kept_as name kept.entry ∷ []) }
    {
        self.kept.insert(name, kept)?;
        Ok(())
    }

    /// Runs a line that was read, other than `units`.
    pub(crate) fn answer(&mut self, alloc: Global, line: Line) -> Result<Reply, Memory>
        requires units { 1 ≤ U }
        requires other { is_units line ≡ false }
        requires limits { IsLimited line }
        ensures reply { IfOk result (λ reply. reply ≡ (turn_of (state_among U self.old) line).reply) }
        ensures after { OnOk result (state_among U self.new ≡ (turn_of (state_among U self.old) line).state) }
        ensures err { OnErr result (self.new ≡ self.old) }
    {
        match line {
            Line::Units { .. } => unreachable!(),
            Line::Replica { name, id } => self.add(alloc, name, id),
            Line::Create { replica, values } => self.create(replica, values),
            Line::Set {
                replica,
                item,
                unit,
                value,
            } => self.set(replica, &item, unit, value),
            Line::Delete { replica, item } => Ok(self.delete(replica, &item)),
            Line::Show { replica } => self.show(alloc, replica),
            Line::Knows {
                replica,
                item,
                unit,
                version,
            } => Ok(self.knows(replica, &item, unit, &version)),
            Line::Equal { first, second } => self.equal(alloc, first, second),
            Line::Sync {
                source,
                destination,
                keep,
                clash,
                options,
            } => self.sync(alloc, source, destination, keep, clash, &options),
            Line::Files { .. } | Line::Clean { .. } | Line::Scan { .. } => Ok(Reply::Refused(
                Reason::NotBuilt,
            )),
        }
    }

    fn add(&mut self, alloc: Global, name: Text, id: ReplicaId) -> Result<Reply, Memory>
        requires { 1 ≤ U }
        ensures reply { IfOk result (λ reply. reply ≡ (replica_turn (state_among U self.old) name id).reply) }
        ensures after { OnOk result (state_among U self.new ≡ (replica_turn (state_among U self.old) name id).state) }
        ensures err { OnErr result (self.new ≡ self.old) }
    {
        if self.kept.contains_key(&name) {
            return Ok(Reply::Refused(Reason::NameTaken));
        }
        if self.is_taken(&id) {
            return Ok(Reply::Refused(Reason::IdTaken));
        }
        let kept = Kept::new(alloc, id)?;
        self.kept.insert(name, kept)?;
        Ok(Reply::Done)
    }

    /// Whether the id is taken: a replica here has it, or has heard of one that has.
    fn is_taken(&self, id: &ReplicaId) -> bool
        ensures { result ≡ is_id_taken id.now self.now }
    {
        for i in 0..self.kept.len() {
            if self.names_at(i, id) {
                return true;
            }
        }
        false
    }

    /// Whether the replica of this index has this id, or has heard of one that has.
    fn names_at(&self, i: usize, id: &ReplicaId) -> bool
        ensures { result ≡ option_map_or (λ m. names_id id.now m.member) (slice_get self.now i) false }
    {
        match self.kept.get_index(i) {
            Some((_, kept)) => kept.replica.names(id),
            None => false,
        }
    }

    fn create(&mut self, name: Text, values: Values) -> Result<Reply, Memory>
        ensures reply { IfOk result (λ reply. reply ≡ (create_turn (state_among U self.old) name values).reply) }
        ensures after { OnOk result
            (state_among U self.new ≡ (create_turn (state_among U self.old) name values).state) }
        ensures err { OnErr result (self.new ≡ self.old) }
    {
        let Some(place) = self.kept.get_index_of(&name) else {
            return Ok(no_replica(name));
        };
        let given = values.as_slice().len();
        if given != U {
            let units = U;
            return Ok(Reply::Refused(Reason::BadCount { given, units }));
        }
        match self.kept[place].replica.create(values.into_vec()) {
            Ok(item) => Ok(Reply::Created(item)),
            Err(fault) => refusal(fault),
        }
    }

    fn set(&mut self, name: Text, item: &ItemId, unit: u64, value: Value) -> Result<Reply, Memory>
        ensures reply { let turn = set_turn (state_among U self.old) name item.now unit value in
            IfOk result (λ reply. reply ≡ turn.reply) }
        ensures after { let turn = set_turn (state_among U self.old) name item.now unit value in
            OnOk result (state_among U self.new ≡ turn.state) }
        ensures err { OnErr result (self.new ≡ self.old) }
    {
        let Some(place) = self.kept.get_index_of(&name) else {
            return Ok(no_replica(name));
        };
        match self.kept[place].replica.set(item, unit as usize, value) {
            Ok(version) => Ok(Reply::Changed(version)),
            Err(fault) => refusal(fault),
        }
    }

    fn delete(&mut self, name: Text, item: &ItemId) -> Reply
        ensures reply { result ≡ (delete_turn (state_among U self.old) name item.now).reply }
        ensures after { state_among U self.new ≡ (delete_turn (state_among U self.old) name item.now).state }
    {
        let Some(place) = self.kept.get_index_of(&name) else {
            return no_replica(name);
        };
        match self.kept[place].replica.delete(item) {
            Ok(version) => Reply::Changed(version),
            Err(fault) => Reply::Refused(Reason::Edit(fault)),
        }
    }

    fn show(&self, alloc: Global, name: Text) -> Result<Reply, Memory>
        ensures { IfOk result (λ reply. reply ≡ (show_turn (state_among U self.now) name).reply) }
    {
        match self.find(&name) {
            Some(kept) => Ok(Reply::Shown(listing(alloc, name.as_str(), &kept.replica)?)),
            None => Ok(no_replica(name)),
        }
    }

    fn knows(&self, name: Text, item: &ItemId, unit: u64, version: &Version) -> Reply
        ensures { result ≡ (knows_turn (state_among U self.now) name item.now unit version.now).reply }
    {
        let Some(kept) = self.find(&name) else {
            return no_replica(name);
        };
        let k = unit as usize;
        match UnitId::new(k) {
            Some(unit) => Reply::Known(kept.replica.knows(item, unit, version)),
            None => Reply::Refused(Reason::Edit(EditFault::BadUnit { k, u: U })),
        }
    }

    fn equal(&self, alloc: Global, first: Text, second: Text) -> Result<Reply, Memory>
        ensures { IfOk result (λ reply. reply ≡ (equal_turn (state_among U self.now) first second).reply) }
    {
        let Some(one) = self.find(&first) else {
            return Ok(no_replica(first));
        };
        let Some(other) = self.find(&second) else {
            return Ok(no_replica(second));
        };
        let knowledge = know_same(alloc, &one.replica, &other.replica)?;
        let items = one.replica.same_live(&other.replica);
        Ok(Reply::Compared { knowledge, items })
    }

    fn sync(
        &mut self,
        alloc: Global,
        source: Text,
        destination: Text,
        keep: Keep,
        clash: ClashRule,
        options: &Options,
    ) -> Result<Reply, Memory>
        requires limits { AreWithinLimits options.now }
        ensures reply { let turn = sync_turn (state_among U self.old) source destination keep clash options.now in
            IfOk result (λ reply. reply ≡ turn.reply) }
        ensures after { let turn = sync_turn (state_among U self.old) source destination keep clash options.now in
            OnOk result (state_among U self.new ≡ turn.state) }
        ensures err { OnErr result (self.new ≡ self.old) }
    {
        if is_built(keep, clash, options) {
            self.run_session(alloc, source, destination, options)
        } else {
            Ok(Reply::Refused(Reason::NotBuilt))
        }
    }

    /// Runs a session that is built.
    fn run_session(
        &mut self,
        alloc: Global,
        source: Text,
        destination: Text,
        options: &Options,
    ) -> Result<Reply, Memory>
        requires limits { AreWithinLimits options.now }
        ensures reply { let turn = session_turn (state_among U self.old) source destination options.now in
            IfOk result (λ reply. reply ≡ turn.reply) }
        ensures after { let turn = session_turn (state_among U self.old) source destination options.now in
            OnOk result (state_among U self.new ≡ turn.state) }
        ensures err { OnErr result (self.new ≡ self.old) }
    {
        let Some(from) = self.find(&source) else {
            return Ok(no_replica(source));
        };
        let Some(to) = self.find(&destination) else {
            return Ok(no_replica(destination));
        };
        match meet(alloc, &from.replica, &to.replica, options) {
            Ok(met) => self.take(alloc, &destination, met),
            Err(fault) => session_refusal(fault),
        }
    }

    /// Puts the destination as the session left it in the place of the replica with this name, and tells
    /// what the session did.
    fn take(&mut self, alloc: Global, name: &Text, met: Meeting<U>) -> Result<Reply, Memory>
        ensures reply { IfOk result (λ reply.
            reply ≡ Synced (report_text met.entry.report.steps met.entry.report.end) met.entry.report.end) }
        ensures after { OnOk result (self.new ≡ members_with name.now met.entry.destination self.old) }
        ensures err { OnErr result (self.new ≡ self.old) }
    {
        let report = told(alloc, &met.report)?;
        self.put(name, met.destination);
        Ok(Reply::Synced {
            report,
            end: met.report.end,
        })
    }

    /// Puts the replica in the place of the one with this name, where there is one. How it is kept stays.
    fn put(&mut self, name: &Text, replica: Replica<U>)
        ensures { self.new ≡ members_with name.now replica.entry self.old }
    {
        if let Some(place) = self.kept.get_index_of(name) {
            self.kept[place].replica = replica;
        }
    }

    /// The replica with this name, as it is kept.
    fn find(&self, name: &Text) -> Option<&Kept<U>>
        ensures { option_map (λ k. kept_as name.now k.now) result ≡ member_of self.now name.now }
    {
        self.kept.get(name)
    }
}
