// Sets of nodes (the scheme: boxes), a bit a node.
ghost use Rattle.std.specs.Prelude.{◌≡◌, ◌<◌, ◌≤◌, length};
ghost use Rattle.archive.specs.Losses.{in_set, nodes_in};
ghost use Rattle.losses.specs.PrivateSets.{set_at, sized};

// How many sets of six nodes there are.
pub const SETS: usize = 64;

// Whether a node is in a set.
pub fn in_set(set: usize, node: usize) -> bool
    requires { node < 64 }
    ensures { result ≡ in_set set node }
{
    (set >> node) % 2 == 1
}

// The number of nodes in a set.
fn size_of(set: usize) -> usize
    ensures { result ≡ length (nodes_in set) }
{
    (0..8usize).fold(0, |count, node| count + (set >> node) % 2)
}

// Whether a set is one of k of so many nodes.
pub fn is_sized(nodes: usize, k: usize, set: usize) -> bool
    requires { nodes ≤ 6 }
    ensures { result ≡ sized nodes k set }
{
    set < 1 << nodes && size_of(set) == k
}

// Set x of all those of six nodes. From 63 down, read with node 0 as the most significant of six bits, sets of one size come in
// lexicographic order.
pub fn set_at(x: usize) -> usize
    requires { x < 64 }
    ensures { result ≡ set_at x }
{
    (0..sizes::NODES_MOST).fold(0, |set, node| set * 2 + ((SETS - 1 - x) >> node) % 2)
}
