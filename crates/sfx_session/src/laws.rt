ghost use Rattle.std.specs.Prelude.{◌≡◌, ℕ, None};
ghost use Rattle.sfx_apply.specs.Rules.{LeavesConflicts};
ghost use Rattle.sfx_model.specs.declared.session_end.SessionEnd.TheVariants.{Done};
ghost use Rattle.sfx_model.specs.members.Members.{Member};
ghost use Rattle.sfx_model.specs.sessions.Rules.{RulesData};
ghost use Rattle.sfx_model.specs.sessions.Session.{session_of};

/// A session of which no cut was asked for is done where the rules leave each conflict alone, as no tick is
/// drawn then, as a law. It does nothing when called.
pub fn uncut_sessions_are_done()
    ensures { (units : ℕ) (source destination : Member) (rules : RulesData) (size : ℕ) → LeavesConflicts rules →
        (session_of units source destination rules size None).end ≡ Done }
{}
