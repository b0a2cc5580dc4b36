//! The laws of passing over.

ghost use Rattle.names_pruning.specs.Laws.{AskedIsBad, DeclaredStays, FineStays, MeaningsStay, NeededStays, NothingIsMade, OneAlone, OnePruned, OverIsNotNeeded, RootsStay};

/// What is needed is the same before and after, body for body, and each name in it means the same.
pub fn needed_laws()
    ensures stays { NeededStays }
    ensures roots { RootsStay }
    ensures meanings { MeaningsStay }
    ensures declared { DeclaredStays }
    ensures asked { AskedIsBad }
{}

/// Nothing is made, and nothing of what is passed over is needed. There is one program that is left, and where nothing is lost it is the program itself.
pub fn pruning_laws()
    ensures made { NothingIsMade }
    ensures over { OverIsNotNeeded }
    ensures one { OnePruned }
    ensures alone { OneAlone }
    ensures fine { FineStays }
{}
