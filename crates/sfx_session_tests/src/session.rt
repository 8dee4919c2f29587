//! Sessions of small replicas.
ghost use Rattle.std.specs.Prelude.{◌≤◌, IfSome};

use crate::fixtures::{SKIP, count_of, left, provider, second_hand};
use sfx_model::{EntryKind, Mode, SessionEnd};
use sfx_replica::MemoryProvider;
use sfx_session::{Report, SessionFault, session};
use std::alloc::Global;
use std::process::Abort;

/// The names of five items.
const FIVE: &[&str] = &["a", "b", "c", "d", "e"];

/// How many items the report tells to be taken.
fn taken(report: &Report<2>) -> usize {
    let mut count: usize = 0;
    for step in &report.steps {
        count = count.saturating_add(count_of(&step.applied, EntryKind::Took));
    }
    count
}

/// A session in batches of 100 changes and groups of 5 entries: how it ended, how many batches it had, and
/// how many items it took.
pub fn sync(
    alloc: Global,
    from: &mut MemoryProvider<2>,
    to: &mut MemoryProvider<2>,
    cut: Option<u64>,
) -> Result<(SessionEnd, usize, usize), SessionFault>
    requires { IfSome cut (λ n. 1 ≤ n) }
{
    let report = session(alloc, from, to, &SKIP, 100, 5, cut)?;
    let told = (report.end, report.steps.len(), taken(&report));
    drop(report);
    Ok(told)
}

/// What is told of a session, and how many items its destination has then.
type Told = (Result<(SessionEnd, usize, usize), SessionFault>, usize);

/// What is told of a session to a new replica with this id, whose listed calls fail.
fn bring(
    rt: &impl Abort,
    alloc: Global,
    from: &mut MemoryProvider<2>,
    id: u128,
    fails: &[u64],
    cut: Option<u64>,
) -> Told
    requires { IfSome cut (λ n. 1 ≤ n) }
{
    let mut to = provider(rt, alloc, id, &[], fails);
    let told = sync(alloc, from, &mut to, cut);
    (told, left(to))
}

/// The same of a session from a replica with five items and the id 10, whose listed calls fail.
fn five_to(
    rt: &impl Abort,
    alloc: Global,
    fails: &[u64],
    destination: (u128, &[u64]),
    cut: Option<u64>,
) -> Told
    requires { IfSome cut (λ n. 1 ≤ n) }
{
    let mut from = provider(rt, alloc, 10, FIVE, fails);
    let told = bring(rt, alloc, &mut from, destination.0, destination.1, cut);
    drop(from);
    told
}

#[test]
fn takes_five_items(rt: HostRuntime) {
    let told = five_to(&rt, rt.alloc(), &[], (11, &[]), None);
    assert!(rt; told == (Ok((SessionEnd::Done, 1, 5)), 5));
}

#[test]
fn ends_at_a_cut(rt: HostRuntime) {
    let told = five_to(&rt, rt.alloc(), &[], (11, &[]), Some(2));
    assert!(rt; told == (Ok((SessionEnd::Cut, 1, 2)), 2));
}

/// Whether there was a report, with five items, where this call of the destination fails; or else the fault of
/// the destination, with none or all of them. `None` where it was neither.
fn reports(rt: &impl Abort, alloc: Global, call: u64) -> Option<bool> {
    match five_to(rt, alloc, &[], (11, &[call]), None) {
        (Ok(_), 5) => Some(true),
        (Err(SessionFault::Destination), 0 | 5) => Some(false),
        (_, _) => None,
    }
}

#[test]
fn fails_with_its_destination(rt: HostRuntime) {
    let mut reported = false;
    for call in 1..40 {
        let now = reports(&rt, rt.alloc(), call);
        let is_so = now == Some(true) || (now == Some(false) && !reported);
        assert!(rt; is_so, "{call}");
        reported = now == Some(true);
    }
    assert!(rt; reported);
}

#[test]
fn fails_with_its_source(rt: HostRuntime) {
    for call in [1, 2, 3] {
        let told = five_to(&rt, rt.alloc(), &[call], (11, &[]), None);
        assert!(rt; told == (Err(SessionFault::Source), 0), "{call}");
    }
}

/// What is told of a session from a replica that was brought five items of another to an old copy of that.
fn to_old_copy(rt: &impl Abort, alloc: Global) -> Told {
    let mut from = second_hand(rt, alloc, 11, FIVE);
    let told = bring(rt, alloc, &mut from, 11, &[], None);
    drop(from);
    told
}

#[test]
fn refuses_an_old_copy(rt: HostRuntime) {
    let ahead = SessionFault::Ahead { tick: 5, clock: 0 };
    assert!(rt; to_old_copy(&rt, rt.alloc()) == (Err(ahead), 0));
}

#[test]
fn refuses_one_replica(rt: HostRuntime) {
    let told = five_to(&rt, rt.alloc(), &[], (10, &[]), None);
    assert!(rt; told == (Err(SessionFault::SameReplica), 0));
}

/// A copy of the report of a session that brings five items to a new replica in batches of two changes.
fn copied_report(rt: &impl Abort, alloc: Global) -> Report<2> {
    let mut from = provider(rt, alloc, 10, FIVE, &[]);
    let mut to = provider(rt, alloc, 11, &[], &[]);
    let report = session(alloc, &mut from, &mut to, &SKIP, 2, 5, None).expect(rt, "a session");
    drop(from);
    drop(to);
    let copy = report.copy(alloc).expect(rt, "a copy");
    drop(report);
    copy
}

#[test]
fn copies_a_report(rt: HostRuntime) {
    let copy = copied_report(&rt, rt.alloc());
    let told = (copy.mode, copy.steps.len(), taken(&copy), copy.end);
    drop(copy);
    assert!(rt; told == (Mode::Normal, 3, 5, SessionEnd::Done));
}
