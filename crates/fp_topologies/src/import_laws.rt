ghost use Rattle.fp_topologies.specs.ImportLaws.{ClosuresLie, OneClosures, UnbrokenAreClosed};

/// Topologies have one list of closures.
pub fn one_closures()
    ensures { OneClosures }
{}

/// Where no import is on a cycle, each topology has a closure.
pub fn unbroken_imports_are_closed()
    ensures { UnbrokenAreClosed }
{}

/// Closures are of topologies that are there.
pub fn closures_lie()
    ensures { ClosuresLie }
{}
