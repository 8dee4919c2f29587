//! Commits to small replicas, and providers of them.
ghost use Rattle.sfx_provider.specs.Course.{CommitsFit};
ghost use Rattle.sfx_provider.specs.Fits.{FitsMember};

use crate::fixtures::{counts, is_pair, item_id, known_to, name, pair};
use sfx_ids::{Cut, ItemId};
use sfx_item::{Item, Name, State};
use sfx_knowledge::Knowledge;
use sfx_provider::{Commit, Provider, ProviderFault, all_items, commit_all};
use sfx_replica::{MemoryProvider, Replica};
use std::alloc::Global;
use std::process::Abort;

/// A commit that drops the item, which the replica holds.
fn dropping(rt: &impl Abort, alloc: Global, replica: &Replica<2>, id: &ItemId) -> Commit<2>
    ensures { FitsMember 2 result replica.now }
{
    replica.id();
    let Some(_) = replica.item(id) else {
        panic!(rt; "an item");
    };
    let mut commit = replica.head(alloc).expect(rt, "a head").into_commit(alloc);
    commit.drops.push(*id).expect(rt, "memory");
    commit
}

/// A commit that puts a tombstone in the place of the item, which the replica holds.
fn burying(rt: &impl Abort, alloc: Global, replica: &Replica<2>, id: &ItemId) -> Commit<2>
    ensures { FitsMember 2 result replica.now }
{
    replica.id();
    let Some(_) = replica.item(id) else {
        panic!(rt; "an item");
    };
    let mut commit = replica.head(alloc).expect(rt, "a head").into_commit(alloc);
    let state = State::Dead(id.creation());
    commit
        .puts
        .push(Item { id: *id, state })
        .expect(rt, "memory");
    commit
}

/// A pair is to have its second item alone once a drop of the first is installed.
#[test]
fn installs_drops(rt: HostRuntime) {
    let mut replica = pair(&rt, rt.alloc(), 10);
    let commit = dropping(&rt, rt.alloc(), &replica, &item_id(&rt, 1, 10));
    replica.install(&commit).expect(&rt, "memory");
    drop(commit);
    let counts = counts(&replica);
    let is_there = replica.item(&item_id(&rt, 2, 10)).is_some();
    drop(replica);
    assert!(rt; counts == (2, 1));
    assert!(rt; is_there);
}

/// Installs a copy of a commit that puts a tombstone in the place of the item.
fn install_put(rt: &impl Abort, alloc: Global, replica: &mut Replica<2>, id: &ItemId) {
    let commit = burying(rt, alloc, replica, id);
    let copy = commit.copy(alloc).expect(rt, "a copy");
    drop(commit);
    replica.install(&copy).expect(rt, "memory");
    drop(copy);
}

/// Whether the replica knows the same as a pair at first.
fn knows_as_pair(rt: &impl Abort, alloc: Global, replica: &Replica<2>) -> bool {
    let pair = pair(rt, alloc, 10);
    let wanted = known_to(rt, alloc, &pair);
    drop(pair);
    let known = known_to(rt, alloc, replica);
    let is_same = known.same(&wanted);
    drop(wanted);
    drop(known);
    is_same
}

/// A pair is to have other live items but the same knowledge once a tombstone of the first is installed.
#[test]
fn installs_puts(rt: HostRuntime) {
    let mut replica = pair(&rt, rt.alloc(), 10);
    install_put(&rt, rt.alloc(), &mut replica, &item_id(&rt, 1, 10));
    let counts = counts(&replica);
    let is_pair = is_pair(&rt, rt.alloc(), &replica);
    let knows_as_pair = knows_as_pair(&rt, rt.alloc(), &replica);
    drop(replica);
    assert!(rt; counts == (2, 2));
    assert!(rt; knows_as_pair && !is_pair);
}

/// A provider of a replica that created two items.
fn provider(rt: &impl Abort, alloc: Global, fails: &[u64]) -> MemoryProvider<2> {
    let fails = Vec::from_slice(alloc, fails).expect(rt, "calls");
    MemoryProvider::new(pair(rt, alloc, 10), fails)
}

/// How many items the provider lists as unseen to one that knows nothing.
fn count_unseen(
    rt: &impl Abort,
    alloc: Global,
    provider: &mut MemoryProvider<2>,
) -> Result<u64, ProviderFault> {
    let nothing = Knowledge::none(alloc).expect(rt, "knowledge");
    let unseen = provider.unseen(alloc, &nothing, &Cut::Start, 9);
    drop(nothing);
    let items = unseen?;
    let count = items.len() as u64;
    drop(items);
    Ok(count)
}

/// The clock that the provider tells.
fn clock_of(alloc: Global, provider: &mut MemoryProvider<2>) -> Result<u64, ProviderFault> {
    let head = provider.head(alloc)?;
    let clock = head.clock;
    drop(head);
    Ok(clock)
}

/// How many items but this one clash with the name.
fn count_clashing(
    alloc: Global,
    provider: &mut MemoryProvider<2>,
    id: &ItemId,
    name: &Name,
) -> Result<u64, ProviderFault> {
    let ids = provider.clashing(alloc, name, id)?;
    let count = ids.len() as u64;
    drop(ids);
    Ok(count)
}

/// 1 where the provider has the item.
fn count_item(
    alloc: Global,
    provider: &mut MemoryProvider<2>,
    id: &ItemId,
) -> Result<u64, ProviderFault> {
    let item = provider.item(alloc, id)?;
    let count = item.is_some() as u64;
    drop(item);
    Ok(count)
}

/// 1 where the provider has an item.
fn count_first(alloc: Global, provider: &mut MemoryProvider<2>) -> Result<u64, ProviderFault> {
    let item = provider.next_from(alloc, &Cut::Start)?;
    let count = item.is_some() as u64;
    drop(item);
    Ok(count)
}

/// Makes one of the calls that read: how many items, or which clock, it tells.
fn read(
    rt: &impl Abort,
    alloc: Global,
    provider: &mut MemoryProvider<2>,
    id: &ItemId,
    name: &Name,
    call: u64,
) -> Result<u64, ProviderFault> {
    match call {
        0 => clock_of(alloc, provider),
        1 => count_item(alloc, provider, id),
        2 => count_first(alloc, provider),
        3 => count_clashing(alloc, provider, id, name),
        _ => count_unseen(rt, alloc, provider),
    }
}

/// The three answers to the same call of a provider whose first and third calls fail.
fn read_thrice(
    rt: &impl Abort,
    alloc: Global,
    id: &ItemId,
    name: &Name,
    call: u64,
) -> [Result<u64, ProviderFault>; 3] {
    let mut provider = provider(rt, alloc, &[1, 3]);
    let first = read(rt, alloc, &mut provider, id, name, call);
    let second = read(rt, alloc, &mut provider, id, name, call);
    let third = read(rt, alloc, &mut provider, id, name, call);
    drop(provider);
    [first, second, third]
}

/// The calls that read, and what they tell.
const READ: &[(u64, u64)] = &[(0, 2), (1, 1), (2, 1), (3, 1), (4, 2)];

#[test]
fn fails_at_listed_calls(rt: HostRuntime) {
    let alloc = rt.alloc();
    let id = item_id(&rt, 1, 10);
    let name = name(&rt, alloc, "b");
    for &(call, told) in READ {
        let failed = Err(ProviderFault::Failed);
        let is_so = read_thrice(&rt, alloc, &id, &name, call) == [failed, Ok(told), failed];
        assert!(rt; is_so, "{call}");
    }
    drop(name);
}

/// How many items the provider has at last.
fn left(provider: MemoryProvider<2>) -> usize {
    let replica = provider.into_replica();
    let count = replica.items().len();
    drop(replica);
    count
}

/// How many items a provider of a pair has after a commit that drops one, and its answer.
fn commit_one(rt: &impl Abort, alloc: Global, id: &ItemId, fails: &[u64]) -> Committed {
    let replica = pair(rt, alloc, 10);
    let commit = dropping(rt, alloc, &replica, id);
    let fails = Vec::from_slice(alloc, fails).expect(rt, "calls");
    let mut provider = MemoryProvider::new(replica, fails);
    let answer = provider.commit(&commit);
    drop(commit);
    (left(provider), answer)
}

/// How many items a walk over a provider whose listed calls fail gives.
fn count_items(rt: &impl Abort, alloc: Global, fails: &[u64]) -> Result<usize, ProviderFault> {
    let mut provider = provider(rt, alloc, fails);
    let walk = all_items(alloc, &mut provider);
    drop(provider);
    let items = walk?;
    let count = items.len();
    drop(items);
    Ok(count)
}

/// The calls that fail, and how many items a walk gives; `None` where it fails.
const WALKS: &[(&[u64], Option<usize>)] = &[
    (&[], Some(2)),
    (&[1], None),
    (&[2], None),
    (&[3], None),
    (&[4], Some(2)),
];

#[test]
fn walks_over_items(rt: HostRuntime) {
    for &(fails, told) in WALKS {
        let is_so = count_items(&rt, rt.alloc(), fails) == told.ok_or(ProviderFault::Failed);
        assert!(rt; is_so, "{fails:?}");
    }
}

/// A commit that changes nothing, and one that drops the item, which the replica holds.
fn two_commits(rt: &impl Abort, alloc: Global, replica: &Replica<2>, id: &ItemId) -> Vec<Commit<2>>
    ensures { CommitsFit 2 result.items replica.now }
{
    replica.id();
    let unchanged = replica.head(alloc).expect(rt, "a head").into_commit(alloc);
    let commits = [unchanged, dropping(rt, alloc, replica, id)];
    Vec::from_array(alloc, commits).expect(rt, "memory")
}

/// How many items a provider of a pair has after two commits, and its answer.
fn commit_two(rt: &impl Abort, alloc: Global, id: &ItemId, fails: &[u64]) -> Committed {
    let replica = pair(rt, alloc, 10);
    let commits = two_commits(rt, alloc, &replica, id);
    let fails = Vec::from_slice(alloc, fails).expect(rt, "calls");
    let mut provider = MemoryProvider::new(replica, fails);
    let answer = commit_all(&mut provider, commits.as_slice());
    drop(commits);
    (left(provider), answer)
}

/// The answer where a call fails.
const FAILED: Result<(), ProviderFault> = Err(ProviderFault::Failed);

/// How many items there are, and the answer.
type Committed = (usize, Result<(), ProviderFault>);

/// The calls that fail, what comes of a commit that drops an item, and of two commits in a row.
const COMMITTED: &[(&[u64], Committed, Committed)] = &[
    (&[], (1, Ok(())), (1, Ok(()))),
    (&[1], (2, FAILED), (2, FAILED)),
    (&[2], (1, Ok(())), (2, FAILED)),
];

#[test]
fn commits_unless_listed(rt: HostRuntime) {
    let first = item_id(&rt, 1, 10);
    for &(fails, of_one, of_two) in COMMITTED {
        let one = commit_one(&rt, rt.alloc(), &first, fails);
        let two = commit_two(&rt, rt.alloc(), &first, fails);
        assert!(rt; (one, two) == (of_one, of_two), "{fails:?}");
    }
}
