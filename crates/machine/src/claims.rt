// The claims about the calls, each the contract of a function that does nothing.
ghost use Rattle.machine.specs.claims.DemandOne.{DemandOne};
ghost use Rattle.machine.specs.claims.DemandTwo.{DemandTwo};
ghost use Rattle.machine.specs.claims.DemandThree.{DemandThree};
ghost use Rattle.machine.specs.claims.Written.{WrittenWords};
ghost use Rattle.machine.specs.claims.Rest.{RestOfBlocks};
ghost use Rattle.machine.specs.claims.Exhibit.{Exhibited};

// Every call answers by its row of the table, and a refusal changes nothing.
pub fn demand_one()
    ensures demand_one { DemandOne }
{}

// An arena that opens behaves as a plain row of sectors, and each step makes the one store that document 01 names.
pub fn demand_two()
    ensures demand_two { DemandTwo }
{}

// A list of calls, cut anywhere, leaves what the plain book says, and opening it finishes just the writes that lack their map word.
pub fn demand_three()
    ensures demand_three { DemandThree }
{}

// Every call leaves each map word as it was, or with flags 11 and a block, and making leaves zeroes.
pub fn written_words()
    ensures written_words { WrittenWords }
{}

// No call changes a byte of a block past the sector's.
pub fn rest_of_blocks()
    ensures rest_of_blocks { RestOfBlocks }
{}

// There is a run on a made arena that meets the premises of demands 2 and 3.
pub fn exhibited()
    ensures exhibited { Exhibited }
{}
