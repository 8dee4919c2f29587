ghost use Rattle.std.specs.Prelude.{◌≡◌, false, IfOk, OnOk, OnErr};
ghost use Rattle.sfx_script.specs.Limits.{IsLimited};
ghost use Rattle.sfx_community.specs.Turn.{empty_state, is_units, turn, turn_of, units_turn};

use crate::members::Members;
use crate::refusing::refusal_unset;
use sfx_ids::Memory;
use sfx_reply::{Reason, Reply};
use sfx_script::{Line, LineFault, parse_line};
use std::alloc::Global;
use std::marker::Model;

/// What a script works on: how many change units each item has, once that is said, and the replicas, by name
/// and in the order in which they were added, each with how it is kept.
#[derive(Drop)]
pub struct State {
    engine: Engine,
}

impl Model for State {
    ghost use Rattle.sfx_community.specs.State.{State};
    ghost use Rattle.sfx_community.specs.Engine.{engine_view};

    ghost Value = { State };

    ghost view = { λ s. engine_view s.engine };
}

/// The replicas, by how many change units their items have; none before that is said.
#[derive(Drop)]
enum Engine {
    Unset,
    One(Members<1>),
    Two(Members<2>),
    Four(Members<4>),
    Eight(Members<8>),
}

impl State {
    /// No unit count is said, and there is no replica.
    pub fn new() -> Self
        ensures { result ≡ empty_state }
    {
        State {
            engine: Engine::Unset,
        }
    }

    /// An equal state of its own memory.
    ///
    /// # Errors
    /// `Memory`.
    pub fn copy(&self, alloc: Global) -> Result<Self, Memory>
        ensures { IfOk result (λ copy. copy ≡ self.now) }
    {
        Ok(State {
            engine: self.engine.copy(alloc)?,
        })
    }

    /// Runs one line of a script, which is none that is passed over, and says what it is replied.
    ///
    /// # Errors
    /// `Memory`; nothing has changed then.
    pub fn turn(&mut self, alloc: Global, line: &[u8]) -> Result<Reply, Memory>
        ensures reply { IfOk result (λ reply. reply ≡ (turn self.old line.now).reply) }
        ensures after { OnOk result (self.new ≡ (turn self.old line.now).state) }
        ensures err { OnErr result (self.new ≡ self.old) }
    {
        match parse_line(alloc, line) {
            Ok(line) => self.run_read_line(alloc, line),
            Err(LineFault::Syntax(at)) => Ok(Reply::Refused(Reason::Syntax(at))),
            Err(LineFault::Memory) => Err(Memory),
        }
    }

    /// Runs a line that was read.
    fn run_read_line(&mut self, alloc: Global, line: Line) -> Result<Reply, Memory>
        requires limits { IsLimited line }
        ensures reply { IfOk result (λ reply. reply ≡ (turn_of self.old line).reply) }
        ensures after { OnOk result (self.new ≡ (turn_of self.old line).state) }
        ensures err { OnErr result (self.new ≡ self.old) }
    {
        match line {
            Line::Units { n } => Ok(self.set_units(alloc, n)),
            line => self.engine.run_among(alloc, line),
        }
    }

    /// Says how many change units each item has, once.
    fn set_units(&mut self, alloc: Global, n: u64) -> Reply
        ensures reply { result ≡ (units_turn self.old n).reply }
        ensures after { self.new ≡ (units_turn self.old n).state }
    {
        let chosen = match n {
            2 => Engine::Two(Members::new(alloc)),
            1 | 4 | 8 => return Reply::Refused(Reason::NotBuilt),
            _ => return Reply::Refused(Reason::BadUnits(n)),
        };
        if !matches!(self.engine, Engine::Unset) {
            return Reply::Refused(Reason::UnitsSet);
        }
        self.engine = chosen;
        Reply::Done
    }
}

impl Engine {
    ghost use Rattle.sfx_community.specs.Engine.{engine_view};

    /// Equal replicas of their own memory, under the same unit count.
    fn copy(&self, alloc: Global) -> Result<Self, Memory>
        ensures { IfOk result (λ copy. engine_view copy ≡ engine_view self.now) }
    {
        match self {
            Engine::Unset => Ok(Engine::Unset),
            Engine::One(members) => Ok(Engine::One(members.copy(alloc)?)),
            Engine::Two(members) => Ok(Engine::Two(members.copy(alloc)?)),
            Engine::Four(members) => Ok(Engine::Four(members.copy(alloc)?)),
            Engine::Eight(members) => Ok(Engine::Eight(members.copy(alloc)?)),
        }
    }

    /// Runs a line that was read, other than `units`, among the replicas.
    fn run_among(&mut self, alloc: Global, line: Line) -> Result<Reply, Memory>
        requires other { is_units line ≡ false }
        requires limits { IsLimited line }
        ensures reply { IfOk result (λ reply. reply ≡ (turn_of (engine_view self.old) line).reply) }
        ensures after { OnOk result (engine_view self.new ≡ (turn_of (engine_view self.old) line).state) }
        ensures err { OnErr result (engine_view self.new ≡ engine_view self.old) }
    {
        match self {
            Engine::Unset => Ok(refusal_unset(line)),
            Engine::One(members) => members.answer(alloc, line),
            Engine::Two(members) => members.answer(alloc, line),
            Engine::Four(members) => members.answer(alloc, line),
            Engine::Eight(members) => members.answer(alloc, line),
        }
    }
}
