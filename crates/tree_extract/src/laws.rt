//! What the theorem refuses, and that some of the members can be extracted.
ghost use Rattle.std.specs.Prelude.{ℕ, List, Option};
ghost use Rattle.tree_extract.specs.Choices.{IsChoice, IsFit, with_kinds};
ghost use Rattle.tree_extract.specs.Members.{Member, AreMembers};
ghost use Rattle.tree_extract.specs.WrongRuns.{RefusesCall, link_followed, led_outside, made_twice};
ghost use Rattle.tree_extract.specs.WrongRuns.{RefusesLeftOut, RefusesForeign, RefusesRightsFirst};
ghost use Rattle.tree_extract.specs.WrongRuns.{RefusesOtherRights};
ghost use Rattle.tree_extract.specs.declared.tree.Kind.{Kind};
ghost use Rattle.tree_extract.specs.declared.tree.Owner.{Owner};

/// Shows that the promises refuse wrong runs: a file that is made through a link, or by a path with
/// `..`, or in place of a link; a member that is left out; a file that is no member; and a file
/// that is made after the rights of a directory were set.
pub fn refused_runs()
    ensures link { (link text rest : List ℕ) (owner : Option Owner)
        → RefusesCall (link_followed link text owner rest) }
    ensures outside { (rest : List ℕ) → RefusesCall (led_outside rest) }
    ensures twice { (path text : List ℕ) (owner : Option Owner)
        → RefusesCall (made_twice path text owner) }
    ensures left_out { RefusesLeftOut }
    ensures foreign { RefusesForeign }
    ensures rights { RefusesRightsFirst }
    ensures other { RefusesOtherRights }
{}

/// Shows that if members can be extracted, so can those of them that are chosen.
pub fn can_be_chosen()
    ensures fit { (ms : List Member) (ks : List Kind) → AreMembers ms → IsChoice ms ks
        → IsFit ms ks }
    ensures can { (ms : List Member) (ks : List Kind) → AreMembers ms → IsFit ms ks
        → AreMembers (with_kinds ms ks) }
{}
