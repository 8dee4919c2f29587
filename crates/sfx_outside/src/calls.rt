ghost use Rattle.std.specs.Prelude.{◌≡◌, ◌<◌, ◌^◌, ◌↔◌, IsTrue, Contains, if◌then◌else◌};
ghost use Rattle.sfx_outside.specs.Fault.{counted};

/// The calls that were made of something in memory which stands for the outside, as a source or a sink:
/// which of them fail, how many were made, and how many failed.
#[derive(Drop)]
pub struct Calls {
    /// The numbers of the calls that fail, counted from 1.
    pub fails: Vec<u64>,
    /// How many calls were made, up to the greatest `u64`.
    pub made: u64,
    /// How many of them failed, up to the greatest `u64`.
    pub faults: u64,
}

impl Calls {
    /// No call made yet. Those whose numbers `fails` lists fail, counted from 1.
    pub fn new(fails: Vec<u64>) -> Self
        ensures fails { result.fails.items ≡ fails.items }
        ensures made { result.made ≡ 0 }
        ensures faults { result.faults ≡ 0 }
    {
        Calls {
            fails,
            made: 0,
            faults: 0,
        }
    }

    /// Counts one more call, and says whether it is one that fails.
    pub fn next_fails(&mut self) -> bool
        ensures fits { (self.old.made < 2 ^ 64) × (self.old.faults < 2 ^ 64) }
        ensures listed { IsTrue result ↔ Contains self.old.fails.items (counted self.old.made) }
        ensures fails { self.new.fails.items ≡ self.old.fails.items }
        ensures made { self.new.made ≡ counted self.old.made }
        ensures faults { self.new.faults ≡ (if result then counted self.old.faults else self.old.faults) }
    {
        self.made = self.made.saturating_add(1);
        let faults = self.faults.saturating_add(1);
        let fails = self.fails.contains(&self.made);
        if fails {
            self.faults = faults;
        }
        fails
    }
}
