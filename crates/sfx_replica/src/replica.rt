ghost use Rattle.std.specs.Option.{option_copied, option_map, option_map_or, option_or};
ghost use Rattle.std.specs.Result.{result_err};
ghost use Rattle.std.specs.Prelude.{◌≡◌, ◌≤◌, ◌↔◌, if◌then◌else◌, nat_eq, true, Some, None, length, map, take, IsTrue, IfOk, IfErr, OnOk, OnErr, IfSome};

use crate::EditFault;
use crate::clashes::{clashing, first_clash};
use crate::items::{bury, cells_at, live_place, target, write};
use crate::live::same_live;
use crate::unseen::unseen;
use sfx_ids::{Cut, ItemId, MAX_TICK, Memory, ReplicaId, Tick, UnitId, Version};
use sfx_item::{Cell, Item, Name, NameFault, Row, State, Value};
use sfx_items::{copies, drop_all, find, first_from, put, put_all};
use sfx_knowledge::{Forgotten, Knowledge};
use sfx_provider::{Commit, Head};
use std::alloc::Global;
use std::marker::Model;

/// A replica whose items have `U` change units: its clock, which is the tick of the last version that it
/// made; what it knows, its own versions apart; the deletions that it has forgotten; and the items that it
/// holds, in order of their ids.
#[derive(Drop)]
pub struct Replica<const U: usize> {
    id: ReplicaId,
    clock: u64,
    knowledge: Knowledge<U>,
    forgotten: Forgotten,
    items: Vec<Item<U>>,
}

impl<const U: usize> Model for Replica<U> {
    ghost use Rattle.sfx_model.specs.members.Members.{Member};
    ghost use Rattle.sfx_model.specs.members.Consistent.{IsConsistent};
    ghost use Rattle.sfx_replica.specs.Replica.{member_view};

    ghost Value = { Member };

    ghost view = { λ r. member_view r.id r.clock r.knowledge r.forgotten r.items.items };

    ghost invariant = { λ r. IsConsistent U (member_view r.id r.clock r.knowledge r.forgotten r.items.items) };
}

impl<const U: usize> Replica<U> {
    ghost use Rattle.sfx_knowledge.specs.Forms.{with_own};
    ghost use Rattle.sfx_knowledge.specs.Knowledge.{HasTicks, IsKnowledge};
    ghost use Rattle.sfx_model.specs.members.Consistent.{IsConsistent};
    ghost use Rattle.sfx_model.specs.world.Events.{Make};
    ghost use Rattle.sfx_model.specs.members.Headline.{live_items};
    ghost use Rattle.sfx_model.specs.sessions.MemberKnowledge.{most_known, names_id};
    ghost use Rattle.sfx_model.specs.members.Members.{contains, shown, state_of, vector_at};
    ghost use Rattle.sfx_model.specs.members.Replica.{ActsIn, RepresentsReplica};
    ghost use Rattle.sfx_model.specs.members.States.{created_contents, deleted_contents, edited_contents, next_created, next_item, next_version};
    ghost use Rattle.sfx_model.specs.world.World.{WellFormed, World};
    ghost use Rattle.sfx_model.specs.members.Readings.{clashing_with, unseen};
    ghost use Rattle.sfx_provider.specs.Answer.{Refuses};
    ghost use Rattle.sfx_provider.specs.Commit.{after_commit};
    ghost use Rattle.sfx_provider.specs.Fits.{FitsMember};
    ghost use Rattle.sfx_provider.specs.Head.{head_of};
    ghost use Rattle.sfx_replica.specs.Edits.{created, deleted, edited, new_member};
    ghost use Rattle.sfx_model.specs.members.Readings.{first_from};
    ghost use Rattle.sfx_replica.specs.Refusals.{create_refusal, delete_refusal, full_clock, refuses_edit, name_refusal, set_refusal};

    /// A replica that has made, learned and forgotten nothing.
    ///
    /// # Errors
    /// `Memory`.
    pub fn new(alloc: Global, id: ReplicaId) -> Result<Self, Memory>
        requires { 1 ≤ U }
        ensures { IfOk result (λ replica. replica ≡ new_member id) }
    {
        Ok(Replica {
            id,
            clock: 0,
            knowledge: Knowledge::none(alloc)?,
            forgotten: Forgotten::none(alloc),
            items: Vec::new(alloc),
        })
    }

    /// An equal replica of its own memory.
    ///
    /// # Errors
    /// `Memory`.
    pub fn copy(&self, alloc: Global) -> Result<Self, Memory>
        ensures { IfOk result (λ copy. copy ≡ self.now) }
    {
        Ok(Replica {
            id: self.id,
            clock: self.clock,
            knowledge: self.knowledge.copy(alloc)?,
            forgotten: self.forgotten.copy(alloc)?,
            items: copies(alloc, self.items.as_slice())?,
        })
    }

    /// The id under which the replica makes its versions.
    pub fn id(&self) -> ReplicaId
        ensures value { result ≡ self.now.id }
        ensures consistent { IsConsistent U self.now }
    {
        self.id
    }

    /// The tick of the last version that the replica made, 0 before the first.
    pub fn clock(&self) -> u64
        ensures { result ≡ self.now.clock }
    {
        self.clock
    }

    /// The deletions that the replica has forgotten.
    pub fn forgotten(&self) -> &Forgotten
        ensures { result.now ≡ self.now.forgotten }
    {
        &self.forgotten
    }

    /// What the replica knows, its own versions apart.
    pub fn stored(&self) -> &Knowledge<U>
        ensures { result.now ≡ self.now.knowledge }
    {
        &self.knowledge
    }

    /// What the replica knows, its own versions included: its own entry is its clock everywhere.
    ///
    /// # Errors
    /// `Memory`.
    pub fn knowledge(&self, alloc: Global) -> Result<Knowledge<U>, Memory>
        ensures ticks { IfOk result (λ k. HasTicks U k (vector_at self.now)) }
        ensures list { IfOk result (λ k. k ≡ with_own U self.now.id self.now.clock self.now.knowledge) }
        ensures form { IfOk result (λ k. IsKnowledge U k) }
    {
        self.knowledge.with_own(alloc, &self.id, self.clock)
    }

    /// All of the replica but its items.
    ///
    /// # Errors
    /// `Memory`.
    pub fn head(&self, alloc: Global) -> Result<Head<U>, Memory>
        ensures { IfOk result (λ head. head ≡ head_of U self.now) }
    {
        Ok(Head {
            id: self.id,
            clock: self.clock,
            knowledge: self.knowledge(alloc)?,
            forgotten: self.forgotten.copy(alloc)?,
        })
    }

    /// Whether the replica's knowledge of the item's unit contains the version.
    pub fn knows(&self, id: &ItemId, unit: UnitId<U>, version: &Version) -> bool
        ensures { result ≡ contains self.now id.now unit.entry version.now }
    {
        if version.replica == self.id {
            version.tick.get() <= self.clock
        } else {
            self.knowledge.contains(id, unit, version)
        }
    }

    /// Whether this is the replica's id, or one that it names: it knows or has forgotten something that a
    /// replica with this id made.
    pub fn names(&self, id: &ReplicaId) -> bool
        ensures { result ≡ names_id id.now self.now }
    {
        self.id == *id || self.most_known(id) > 0
    }

    /// The greatest tick that the replica knows or has forgotten of the replica with this id.
    fn most_known(&self, id: &ReplicaId) -> u64
        ensures { result ≡ most_known id.now self.now.knowledge self.now.forgotten }
    {
        self.knowledge.most(id).max(self.forgotten.vector().get(id))
    }

    /// The items that the replica holds, tombstones included, in order of their ids.
    pub fn items(&self) -> &[Item<U>]
        ensures { result.now ≡ self.now.items }
    {
        self.items.as_slice()
    }

    /// The item with this id, or `None` where the replica holds none.
    pub fn item(&self, id: &ItemId) -> Option<&Item<U>>
        ensures state { option_map (λ x. x.now.state) result ≡ state_of self.now.items id.now }
        ensures same { IfSome result (λ x. x.now.id ≡ id.now) }
    {
        find(self.items.as_slice(), id)
    }

    /// The first item whose place is not before `from`, or `None` where there is none.
    pub fn next_from(&self, from: &Cut) -> Option<&Item<U>>
        ensures { option_map (λ x. x.now) result ≡ first_from from.now self.now.items }
    {
        first_from(self.items.as_slice(), from)
    }

    /// The ids of the live items but the excepted one whose names clash with this one, ascending.
    ///
    /// # Errors
    /// `Memory`.
    pub fn clashing(
        &self,
        alloc: Global,
        name: &Name,
        except: Option<ItemId>,
    ) -> Result<Vec<ItemId>, Memory>
        ensures { IfOk result (λ ids. ids.items ≡ clashing_with name.now except self.now.items) }
    {
        Ok(clashing(alloc, self.items.as_slice(), name, except.as_ref())?)
    }

    /// The ids of the first `limit` items, from those whose place is not before `from`, with a unit whose
    /// version the knowledge does not contain.
    ///
    /// # Errors
    /// `Memory`.
    pub fn unseen(
        &self,
        alloc: Global,
        to: &Knowledge<U>,
        from: &Cut,
        limit: usize,
    ) -> Result<Vec<ItemId>, Memory>
        ensures { IfOk result (λ ids. ids.items ≡
            map (λ x. x.id) (take limit (unseen U to.now from.now self.now.items))) }
    {
        Ok(unseen(alloc, self.items.as_slice(), to, from, limit)?)
    }

    /// Whether both replicas hold the same live items, with the same ids, versions and values.
    pub fn same_live(&self, other: &Replica<U>) -> bool
        ensures { IsTrue result ↔ (live_items self.now.items ≡ live_items other.now.items) }
    {
        same_live(self.items.as_slice(), other.items.as_slice())
    }

    /// Creates an item with these values, one for each unit, at the next tick.
    ///
    /// # Errors
    /// `BadName` where the value for unit 0 is no name, `Clash` where that name clashes with a live
    /// item's, `ClockFull`, and `Memory`. Nothing has changed then.
    pub fn create(&mut self, values: Vec<Value>) -> Result<ItemId, EditFault>
        requires whole { length values.items ≡ U }
        ensures refused { Refuses refuses_edit result (create_refusal self.old values.items) }
        ensures made { IfOk result (λ id. id ≡ next_item self.old) }
        ensures after { OnOk result (self.new ≡ created self.old values.items) }
        ensures err { OnErr result (self.new ≡ self.old) }
        ensures acts { OnOk result ((w : World) → WellFormed w → w.units ≡ U →
            RepresentsReplica w self.old.id (shown self.old) →
            ActsIn w (Make self.old.id (next_item self.old) (next_version self.old)
            (created_contents values.items)) self.old.id self.new) }
    {
        let item = self.new_item(values)?;
        let id = item.id;
        put(&mut self.items, item)?;
        self.clock += 1;
        Ok(id)
    }

    /// Writes a value to one unit of a live item, at the next tick. A value that is equal to the unit's
    /// makes a new version, too.
    ///
    /// # Errors
    /// `NoItem` and `Deleted` by what the replica holds under the id, `BadUnit` where there is no such
    /// unit; for unit 0 `BadName` where the value is no name, and `Clash` where it clashes with the name
    /// of another live item; `ClockFull`, and `Memory`. Nothing has changed then.
    pub fn set(&mut self, id: &ItemId, k: usize, value: Value) -> Result<Version, EditFault>
        ensures refused { Refuses refuses_edit result (set_refusal U self.old id.now k value) }
        ensures made { IfOk result (λ version. version ≡ next_version self.old) }
        ensures after { OnOk result (self.new ≡ edited self.old id.now k value) }
        ensures err { OnErr result (self.new ≡ self.old) }
        ensures acts { OnOk result ((w : World) → WellFormed w → w.units ≡ U →
            RepresentsReplica w self.old.id (shown self.old) →
            ActsIn w (Make self.old.id id.now (next_version self.old) (edited_contents k value))
            self.old.id self.new) }
    {
        let (place, unit) = target(self.items.as_slice(), id, k)?;
        let cell = self.next_cell(id, k, value)?;
        let version = cell.version;
        write(&mut self.items, place, unit, cell)?;
        self.clock += 1;
        Ok(version)
    }

    /// Deletes a live item, at the next tick: a tombstone of that version stays. It takes no memory.
    ///
    /// # Errors
    /// `NoItem` and `Deleted` by what the replica holds under the id, and `ClockFull`. Nothing has changed
    /// then.
    pub fn delete(&mut self, id: &ItemId) -> Result<Version, EditFault>
        ensures refused { result_err result ≡ delete_refusal self.old id.now }
        ensures made { IfOk result (λ version. version ≡ next_version self.old) }
        ensures after { OnOk result (self.new ≡ deleted self.old id.now) }
        ensures err { OnErr result (self.new ≡ self.old) }
        ensures acts { OnOk result ((w : World) → WellFormed w → w.units ≡ U →
            RepresentsReplica w self.old.id (shown self.old) →
            ActsIn w (Make self.old.id id.now (next_version self.old) (deleted_contents U))
            self.old.id self.new) }
    {
        let place = live_place(self.items.as_slice(), id)?;
        let made = self.next_version()?;
        bury(&mut self.items, place, &made);
        self.clock += 1;
        Ok(made)
    }

    /// Changes the replica as the commit says: its clock, what it knows and what it has forgotten, and the
    /// items that are put and dropped. All else stays.
    ///
    /// # Errors
    /// `Memory`. Nothing has changed then.
    pub fn install(&mut self, commit: &Commit<U>) -> Result<(), Memory>
        requires fits { FitsMember U commit.now self.old }
        ensures ok { OnOk result (self.new ≡ after_commit U commit.now self.old) }
        ensures err { OnErr result (self.new ≡ self.old) }
    {
        let alloc = *self.items.allocator();
        let knowledge = commit.knowledge.without_own(alloc, &self.id)?;
        let forgotten = commit.forgotten.copy(alloc)?;
        let puts = copies(alloc, commit.puts.as_slice())?;
        put_all(&mut self.items, puts)?;
        drop_all(&mut self.items, commit.drops.as_slice());
        self.clock = commit.clock;
        self.knowledge = knowledge;
        self.forgotten = forgotten;
        Ok(())
    }

    /// The item that is created next with these values.
    fn new_item(&self, values: Vec<Value>) -> Result<Item<U>, EditFault>
        requires whole { length values.items ≡ U }
        ensures refused { Refuses refuses_edit result (create_refusal self.now values.items) }
        ensures value { IfOk result (λ item. item ≡ next_created self.now values.items) }
    {
        let alloc = *self.items.allocator();
        self.check_name(values[0].bytes(), None)?;
        let version = self.next_version()?;
        let row = Row::new(alloc, cells_at(alloc, version, values)?)?.unwrap();
        Ok(Item {
            id: ItemId {
                tick: version.tick,
                replica: version.replica,
            },
            state: State::Live(row),
        })
    }

    /// The cell that is written next to the unit of the item.
    fn next_cell(&self, id: &ItemId, k: usize, value: Value) -> Result<Cell, EditFault>
        ensures refused { Refuses refuses_edit result
            (option_or (if nat_eq k 0 then name_refusal self.now (Some id.now) value else None)
            (full_clock self.now)) }
        ensures value { IfOk result (λ cell. cell ≡ (record { version = next_version self.now; value = value })) }
    {
        self.check_value(id, k, &value)?;
        Ok(Cell {
            version: self.next_version()?,
            value,
        })
    }

    /// Refuses a value that may not be written to the unit of the item: for unit 0 one that may not
    /// name it.
    fn check_value(&self, id: &ItemId, k: usize, value: &Value) -> Result<(), EditFault>
        ensures { Refuses refuses_edit result
            (if nat_eq k 0 then name_refusal self.now (Some id.now) value.now else None) }
    {
        if k != 0 {
            return Ok(());
        }
        self.check_name(value.bytes(), Some(id))
    }

    /// Refuses a value that may not name an item, which is the excepted one where there is one.
    fn check_name(&self, name: &[u8], except: Option<&ItemId>) -> Result<(), EditFault>
        ensures { Refuses refuses_edit result (name_refusal self.now (option_copied except.entry) name.now) }
    {
        let name = match Name::read(*self.items.allocator(), name) {
            Ok(name) => name,
            Err(NameFault::BadName(at)) => return Err(EditFault::BadName(at)),
            Err(NameFault::Memory) => return Err(EditFault::Memory),
        };
        match first_clash(self.items.as_slice(), &name, except) {
            Some(id) => Err(EditFault::Clash(id)),
            None => Ok(()),
        }
    }

    /// The version that is made next.
    fn next_version(&self) -> Result<Version, EditFault>
        ensures refused { Refuses refuses_edit result (full_clock self.now) }
        ensures memory { IfErr result (λ fault. refuses_edit fault ≡ true) }
        ensures value { IfOk result (λ version. version ≡ next_version self.now) }
    {
        if self.clock >= MAX_TICK {
            return Err(EditFault::ClockFull(self.clock));
        }
        Ok(Version {
            replica: self.id,
            tick: Tick::new(self.clock + 1).unwrap(),
        })
    }
}
