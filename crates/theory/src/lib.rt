//! The definitions of the subject, ST 2110-20 over RTP, and the theorems about them.
//! Crates above cite the definitions (specs/) and the lemmas (proofs/). The functions here do nothing: each carries one theorem in its contract.
#![tactic(auto)]

ghost use Rattle.theory.specs.Cases.{WorkedCases};
ghost use Rattle.theory.specs.Claims.{GroupsRoundTrip, PartsAreWhole, RefusalsChangeNothing, RunsKeepTheLaw, StandardKinds, TakenAreReadable};

// Every run from an opening keeps the law, for every kind with the laws and every picture.
pub fn runs_keep_the_law()
    ensures { RunsKeepTheLaw }
{}

// All that is read of a taken packet lies in it, and what it names lies in the part and in the map.
pub fn taken_packets_are_readable()
    ensures { TakenAreReadable }
{}

// An offer that is refused leaves picture and map as they were.
pub fn refusals_change_nothing()
    ensures { RefusalsChangeNothing }
{}

// The packets of a whole part name every group once, in order, and none of them is refused.
pub fn parts_are_whole()
    ensures { PartsAreWhole }
{}

// A group built and taken apart is what it was, and one taken apart and built too.
pub fn groups_round_trip()
    ensures { GroupsRoundTrip }
{}

// The six kinds of the standard have the laws.
pub fn standard_kinds_are_lawful()
    ensures { StandardKinds }
{}

// The worked cases.
pub fn worked_cases()
    ensures { WorkedCases }
{}
