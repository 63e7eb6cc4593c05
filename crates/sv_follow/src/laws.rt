// A law of page trees, on a function that does nothing.
ghost use Rattle.std.specs.Prelude.{List};
ghost use Rattle.sv_document.specs.declared.tree.Node.{Node};
ghost use Rattle.sv_follow.specs.Followed.{Tree, Follows};
ghost use Rattle.sv_follow.specs.Ways.{KeepsNodes};

/// At the end of a way, on which no mark is that of two nodes, stands the node that stood there, or a new one.
pub fn ways_keep_nodes()
    ensures { (old new : Tree) (nodes : List Node) → Follows old nodes new → KeepsNodes old nodes new }
{}
