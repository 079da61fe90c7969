ghost use Rattle.node_table.specs.Filters.{SilenceLaw};
ghost use Rattle.node_table.specs.Frames.{BlockLaw};

/// To hear a block is to hear its first part and then the rest.
pub fn block_law()
    ensures { BlockLaw }
{}

/// A filter that has heard nothing but 0 puts out 0.
pub fn silence_law()
    ensures { SilenceLaw }
{}
