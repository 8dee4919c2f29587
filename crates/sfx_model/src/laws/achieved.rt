ghost use Rattle.std.specs.Prelude.{◌≡◌, ℕ, Option};
ghost use Rattle.sfx_model.specs.sessions.Achieved.{GoesBothWays, IsStill, KnowsBoth, LeavesNothing, member_after};
ghost use Rattle.sfx_model.specs.sessions.Acts.{IsOrderly};
ghost use Rattle.sfx_model.specs.members.Consistent.{IsConsistent};
ghost use Rattle.sfx_model.specs.sessions.MemberKnowledge.{laid_known};
ghost use Rattle.sfx_model.specs.members.Members.{Member};
ghost use Rattle.sfx_model.specs.sessions.Rules.{RulesData};
ghost use Rattle.sfx_model.specs.sessions.Session.{SessionResult, session_of};

/// What a session achieves between any two members, as a law. It does nothing when called.
///
/// `joined`: where a session leaves nothing, its destination then knows at every place and unit what both
/// sides knew before, and of itself its clock. `equal`: where a session back follows at once, both leave
/// nothing, and the one back draws no tick, both sides then know the same, list by list. `still`: where both
/// sides know the same, and the source is consistent, a session has one batch, without changes.
pub fn knowledge_is_joined()
    ensures joined { (units : ℕ) (source m : Member) (rules : RulesData) (size : ℕ) (cut : Option ℕ) →
        IsOrderly units source → IsOrderly units m → LeavesNothing (session_of units source m rules size cut) →
        KnowsBoth units source m (member_after (session_of units source m rules size cut)) }
    ensures equal { (units : ℕ) (a b : Member) (rules rules_back : RulesData) (size size_back : ℕ)
        (cut cut_back : Option ℕ) (there back : SessionResult) →
        IsOrderly units a → IsOrderly units b →
        there ≡ session_of units a b rules size cut →
        back ≡ session_of units (member_after there) a rules_back size_back cut_back →
        GoesBothWays units a b there back →
        laid_known units (member_after back) ≡ laid_known units (member_after there) }
    ensures still { (units : ℕ) (source m : Member) (rules : RulesData) (size : ℕ) (cut : Option ℕ) →
        IsConsistent units source → laid_known units source ≡ laid_known units m →
        IsStill (session_of units source m rules size cut) }
{}
