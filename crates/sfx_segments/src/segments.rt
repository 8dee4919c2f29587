ghost use Rattle.std.specs.Fn.{FnReturnsAt};
ghost use Rattle.std.specs.Prelude.{◌≡◌, ◌<◌, length, slice_get, Some, true, false, IsTrue, IfOk, OnOk, OnErr, option_map};
ghost use Rattle.sfx_segments.specs.Segments.{IsPlace, value_at, AreSegments, HaveEverywhere, SetsRange, AreCombined, EveryValue, SomeValue};

use crate::Combine;
use crate::join::{Combined, Overlay};
use crate::merge::merged;
use sfx_ids::{Cut, Memory, Part};
use std::alloc::Global;
use std::marker::Model;

/// A total map from places to values. A segment is the place where it begins and the value from there up
/// to the next: the first begins at `Start`, places ascend, and neighbours differ. So two maps that agree
/// at every place have equal segments.
#[derive(Drop)]
pub struct Segments<T> {
    items: Vec<(Cut, T)>,
}

impl<T> Model for Segments<T> {
    ghost use Rattle.std.specs.Prelude.{List};
    ghost use Rattle.sfx_ids.specs.declared.cut.Cut.{Cut};
    ghost use Rattle.sfx_segments.specs.Segments.{AreSegments};

    ghost Value = { List (Cut × T) };

    ghost view = { λ s. s.items.items };

    ghost invariant = { λ s. AreSegments s.items.items };
}

impl<T: Part> Segments<T> {
    /// This value at every place.
    pub fn new(alloc: Global, value: T) -> Result<Self, Memory>
        ensures everywhere { IfOk result (λ segments. HaveEverywhere segments value) }
        ensures form { IfOk result AreSegments }
    {
        let mut items = Vec::new(alloc);
        items.push((Cut::Start, value))?;
        Ok(Segments { items })
    }

    /// The value at the place, which is any cut but `End`.
    pub fn get(&self, at: &Cut) -> &T
        requires { IsPlace at.now }
        ensures value { value_at self.now at.now ≡ Some result.now }
        ensures form { AreSegments self.now }
    {
        let mut found = &self.items[0].1;
        for segment in &self.items[1..] {
            if *at < segment.0 {
                return found;
            }
            found = &segment.1;
        }
        found
    }

    /// Gives the places from `lo` up to but not `hi` this value, and leaves the others as they are. Where
    /// memory is refused, all stay.
    pub fn set_range(&mut self, lo: &Cut, hi: &Cut, value: &T) -> Result<(), Memory>
        ensures ok { OnOk result (SetsRange self.old self.new lo.now hi.now value.now) }
        ensures err { OnErr result (self.new ≡ self.old) }
        ensures form { AreSegments self.new }
    {
        let alloc = *self.items.allocator();
        let marks = [(Cut::Start, false), (*lo, true), (*hi, false)];
        let items = merged(alloc, &self.items, &marks, &Overlay { value })?;
        self.items = items;
        Ok(())
    }

    /// The map that has at every place what `how` makes of the values that both have there.
    pub fn zip_with<C: Combine<T>>(
        &self,
        alloc: Global,
        other: &Segments<T>,
        how: &C,
    ) -> Result<Segments<T>, Memory>
        ensures everywhere { IfOk result (λ made. AreCombined (C.meaning how.now) self.now other.now made) }
        ensures form { IfOk result AreSegments }
    {
        let items = merged(alloc, &self.items, &other.items, &Combined { how })?;
        Ok(Segments { items })
    }

    /// Whether the test holds at every place.
    pub fn all<F: Fn(&T) -> bool + Drop>(&self, test: F) -> bool
        requires { F.IsAlwaysCallable test }
        ensures holds { IsTrue result → EveryValue self.now (λ value. FnReturnsAt F.Fn test value true) }
        ensures fails { result ≡ false → SomeValue self.now (λ value. FnReturnsAt F.Fn test value false) }
        ensures form { AreSegments self.now }
    {
        for segment in &self.items {
            if !passes(&test, &segment.1) {
                return false;
            }
        }
        true
    }

    /// How many segments there are, which is at least one.
    pub fn len(&self) -> usize
        ensures count { result ≡ length self.now }
        ensures some { 0 < result }
        ensures form { AreSegments self.now }
    {
        self.items.len()
    }

    /// Where the segment of this index begins.
    pub fn start(&self, i: usize) -> Cut
        requires { i < length self.now }
        ensures start { option_map (λ segment. segment.0) (slice_get self.now i) ≡ Some result }
        ensures place { IsPlace result }
    {
        self.items[i].0
    }

    /// The value of the segment of this index.
    pub fn value(&self, i: usize) -> &T
        requires { i < length self.now }
        ensures { option_map (λ segment. segment.1) (slice_get self.now i) ≡ Some result.now }
    {
        &self.items[i].1
    }

    /// An equal map of its own memory.
    pub fn copy(&self, alloc: Global) -> Result<Self, Memory>
        ensures { IfOk result (λ copied. copied ≡ self.now) }
    {
        let mut items = Vec::with_capacity(alloc, self.items.len())?;
        for segment in &self.items {
            items.push((segment.0, segment.1.copy(alloc)?))?;
        }
        Ok(Segments { items })
    }
}

/// What the test answers at the value.
fn passes<T, F: Fn(&T) -> bool>(test: &F, value: &T) -> bool
    requires { F.IsAlwaysCallable test.now }
    ensures { FnReturnsAt F.Fn test.now value.now result }
{
    test(value)
}
