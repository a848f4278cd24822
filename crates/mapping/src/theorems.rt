// Why mapping rows is right: each theorem is the contract of a function.
ghost use Rattle.mapping.specs.Example.{TwoToOne};
ghost use Rattle.mapping.specs.Laws.{MappingMaps, RunBrings};

// The gates of a mapping send a word to a smaller one, and leave every word below that.
pub fn mapping_maps()
    ensures { MappingMaps }
{}

// A run brings a map whose images differ to identity, within its budget.
pub fn run_brings()
    ensures { RunBrings }
{}

// The gates that map 2 to 1.
pub fn two_to_one()
    ensures { TwoToOne }
{}
