//! What holds of a node that asks again and again, within bounds. The law is a function that does nothing; its contract
//! is the law.
ghost use Rattle.std.specs.Prelude.{◌≡◌, List, ◌++◌};
ghost use Rattle.depot_base.specs.declared.record.Record.{Record};
ghost use Rattle.depot_model.specs.journals.Journal.{accepted};
ghost use Rattle.depot_gossip.specs.AskingAgain.{AdmitsFirst, AreRounds, CatchUp, CatchUpFromBehind, CoversShared, HasTaken, IsBehind, IsHelloOf, IsNewHello, IsRound, MakesProgress, NamesLeaves, Round};

/// Who asks again and again, each time with a new hello, comes to what one whole bundle brings.
///
/// - `taken`: what a round brings. Nothing is refused, and each update that was sent is accepted.
/// - `ends`: let each round bring something that the asker lacked of what the asked one had at first, as long as it
///   lacks some of that. Then after as many rounds as it lacked updates it has all of it.
/// - `progress`: a round brings something if the hello covers what both have, and if the bounds admit the first parcel.
/// - `covers`: the hello covers what both have if it names each leaf of the asker, and if the asked one has accepted
///   those that others wrote: the asker is behind, not beside.
/// - `hellos`: each hello that the asker makes, far or not, is its own and names each leaf.
/// - `behind`: so an asker that is behind at first, and that meanwhile hears no other node, comes to all of it.
///
/// Without such a premise it needn't: who knows of some updates only what follows them, which the asked one lacks, names
/// nothing that covers them. If the bounds admit no more than these, the same bundle comes again and again. The law
/// assumes that no correct node's signature was forged, and that no two hashed texts collide.
pub fn asking_again_law()
    ensures taken { (r : Round) → IsRound r → HasTaken r }
    ensures ends { (r : Round) (rs : List Round) → AreRounds r rs → CatchUp r rs }
    ensures progress { (r : Round) (front since : List Record) → IsRound r → CoversShared r → AdmitsFirst r → r.records ≡ front ++ since → MakesProgress (accepted front) r }
    ensures covers { (r : Round) → IsRound r → NamesLeaves r → IsBehind r → CoversShared r }
    ensures hellos { (r : Round) → IsNewHello r → IsHelloOf r.asker r.hello × NamesLeaves r }
    ensures behind { (r : Round) (rs : List Round) → AreRounds r rs → CatchUpFromBehind r rs }
{}
