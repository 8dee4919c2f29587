ghost use Rattle.std.specs.Prelude.{◌≡◌, ℕ, Option, None};
ghost use Rattle.sfx_model.specs.sessions.Achieved.{LeavesNoUnit};
ghost use Rattle.sfx_model.specs.members.Consistent.{IsConsistent};
ghost use Rattle.sfx_model.specs.sessions.Entry.{EntryData};
ghost use Rattle.sfx_model.specs.members.Members.{Member, shown};
ghost use Rattle.sfx_model.specs.members.Replica.{RepresentsReplica};
ghost use Rattle.sfx_model.specs.sessions.Rules.{RulesData};
ghost use Rattle.sfx_model.specs.sessions.Session.{StepData, session_of};
ghost use Rattle.sfx_model.specs.world.Sets.{Has};
ghost use Rattle.sfx_model.specs.sessions.Undisturbed.{DrewNone, IsUndisturbed, KnowsMadeAlone};
ghost use Rattle.sfx_model.specs.world.World.{World};
ghost use Rattle.sfx_model.specs.declared.session_end.SessionEnd.TheVariants.{Done};

/// Where the same thing was not changed on both sides and no two names clash, a session leaves nothing alone
/// and draws no tick, under every rule, as a law. Where it is done, its destination then knows what both sides
/// knew, as `knowledge_is_joined` says. It does nothing when called.
///
/// `nothing_left`: no entry leaves a unit of its item alone. `nothing_drawn`: the destination's clock stays,
/// and `no_ticks`: no entry draws a tick, for its own item or for others. `done`: where no cut is asked for,
/// the session ends with the whole range done. `made`: of two members that represent their sites in a world the
/// source knows of the destination no version that this has not made, as the others ask.
pub fn undisturbed_sessions()
    ensures nothing_left { (units : ℕ) (source m : Member) (rules : RulesData) (size : ℕ) (cut : Option ℕ) →
        IsConsistent units source → IsConsistent units m → KnowsMadeAlone units source m →
        IsUndisturbed units source m →
        LeavesNoUnit (session_of units source m rules size cut) }
    ensures nothing_drawn { (units : ℕ) (source m : Member) (rules : RulesData) (size : ℕ) (cut : Option ℕ) →
        IsConsistent units source → IsConsistent units m → KnowsMadeAlone units source m →
        IsUndisturbed units source m →
        (session_of units source m rules size cut).course.member.clock ≡ m.clock }
    ensures no_ticks { (units : ℕ) (source m : Member) (rules : RulesData) (size : ℕ) (cut : Option ℕ) (s : StepData)
        (e : EntryData) →
        IsConsistent units source → IsConsistent units m → KnowsMadeAlone units source m →
        IsUndisturbed units source m →
        Has s (session_of units source m rules size cut).course.steps → Has e s.applied.entries →
        DrewNone e }
    ensures done { (units : ℕ) (source m : Member) (rules : RulesData) (size : ℕ) →
        IsConsistent units source → IsConsistent units m → KnowsMadeAlone units source m →
        IsUndisturbed units source m →
        (session_of units source m rules size None).end ≡ Done }
    ensures made { (w : World) (source m : Member) →
        RepresentsReplica w source.id (shown source) → RepresentsReplica w m.id (shown m) →
        KnowsMadeAlone w.units source m }
{}
