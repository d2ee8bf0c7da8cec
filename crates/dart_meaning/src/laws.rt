//! Laws of the meaning. Each is for every tree, every entry and every number of turns, and so its function does nothing.

ghost use Rattle.dart_meaning.specs.Agree.{NumberedIsSame, BuiltInStandsForNothing};
ghost use Rattle.dart_meaning.specs.Laws.{FewerTurnsTellAFront, EnoughTurnsAreEnough, OutOfTurnsSpendsAll, AskedAtSites, AskedAtSitesOfTree};

/// More turns only add to what an entry does.
pub fn more_turns_go_on()
    ensures front { FewerTurnsTellAFront }
    ensures enough { EnoughTurnsAreEnough }
    ensures out_of_turns { OutOfTurnsSpendsAll }
{}

/// What is counted as a call is one: at a site, on a class that has objects.
pub fn calls_are_at_sites()
    ensures numbering { AskedAtSites }
    ensures tree { AskedAtSitesOfTree }
{}

/// A numbered program that stands for a tree does what the tree does. There is one for the tree that declares nothing.
pub fn numbered_does_the_same()
    ensures same { NumberedIsSame }
    ensures built_in { BuiltInStandsForNothing }
{}
