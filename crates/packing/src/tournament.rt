// A tournament of keys, one for each service, as a tree: leaf s stands at LEAVES + s, and each node i below the leaves
// holds the greater of its children, the nodes 2 i and 2 i + 1. So the root, node 1, holds the greatest key.
ghost use Rattle.std.specs.Prelude.{◌≡◌, ◌<◌, replicate};
ghost use Rattle.packing.specs.Inner.Tournament.{leaves, nodes, Tournament, Replaced};

pub const LEAVES: usize = numerals::MOST_SERVICES;

pub const LAST: usize = LEAVES - 1;

pub const NODES: usize = 2 * LEAVES;

#[derive(Drop)]
pub struct Tree {
    pub nodes: [u64; NODES],
    ghost tournament: { Tournament nodes },
}

impl Tree {
    // Every key is 0.
    pub fn new() -> Tree
        ensures { result.nodes ≡ replicate nodes 0 }
    {
        Tree { nodes: [0; NODES] }
    }

    // Another key in leaf s.
    pub fn replace(&mut self, s: usize, key: u64)
        requires { s < leaves }
        ensures { Replaced self.old.nodes s key self.new.nodes }
    {
        refill(&mut self.nodes, s, key);
    }
}

// Another key in leaf s: the nodes from there up to the root are filled anew. A `while`, since it counts no index: it
// goes from a node to its parent.
fn refill(tree: &mut [u64; NODES], s: usize, key: u64)
    requires { (s < leaves) × Tournament tree.old }
    ensures tournament { Tournament tree.new }
    ensures replaced { Replaced tree.old s key tree.new }
{
    let mut i = LEAVES + s;
    tree[i] = key;
    while 1 < i {
        i /= 2;
        tree[i] = tree[2 * i].max(tree[2 * i + 1]);
    }
}
