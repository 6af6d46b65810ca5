ghost use Rattle.wa_ops.specs.Sequences.{OneTree, TreeReads};

/// The law that flat code is one tree at most.
pub fn one_tree()
    ensures law { OneTree }
{}

/// The law that `tree_of` finds the tree of flat code exactly where there is one.
pub fn tree_reads()
    ensures law { TreeReads }
{}
