// A tree column, and the paths that are read off it.
ghost use Rattle.std.specs.Prelude.{◌≡◌, ◌≤◌, length};
ghost use Rattle.table.specs.Table.{most_nodes};

// The arcs' tails and heads, a tree column over them with an entry for each node, and the origin that the paths begin at. Which node is asked of it
// changes from call to call, so that the node's entry stands in each contract.
#[derive(Clone, Copy)]
pub struct Tree<'a> {
    pub origin: u16,
    pub tails: &'a [u16],
    pub heads: &'a [u16],
    pub column: &'a [u16],
    ghost heads_are: { length tails.now ≡ length heads.now },
    ghost few: { length column.now ≤ most_nodes },
}

impl Tree<'_> {
    ghost use Rattle.std.specs.Prelude.{true, ◌<◌, if◌then◌else◌, reverse};
    ghost use Rattle.listing.specs.Listing.{leads_back, node_before, nodes_of};
    ghost use Rattle.paths.specs.Trees.{tree_of, path_to, size};

    // The node before a node, where the node's entry leads back: it is an arc that leads into the node, out of a node below n.
    pub(crate) fn node_before(&self, node: u16) -> Option<u16>
        requires { node < length self.now.column.now }
        ensures { result ≡ (if leads_back (tree_of self.now) node then Some (node_before (tree_of self.now) node) else None) }
    {
        let entry = usize::from(self.column[usize::from(node)]);
        let before = *self.tails.get(entry)?;
        if self.heads[entry] == node && usize::from(before) < self.column.len() {
            Some(before)
        } else {
            None
        }
    }

    // How many nodes the path to a node has, where the tree column leads back to the origin.
    pub(crate) fn count_nodes(&self, node: u16) -> Option<usize>
        requires { node < length self.now.column.now }
        ensures { result ≡ size (path_to self.now node) }
    {
        let mut v = node;
        for count in 1..=self.column.len() {
            if v == self.origin {
                return Some(count);
            }
            v = self.node_before(v)?;
        }
        None
    }

    // The same where the node's entry is known to lead back, as on a path whose nodes have been counted.
    fn known_before(&self, node: u16) -> u16
        requires node_in_bounds { node < length self.now.column.now }
        requires leads { leads_back (tree_of self.now) node ≡ true }
        ensures { result ≡ node_before (tree_of self.now) node }
    {
        self.tails[usize::from(self.column[usize::from(node)])]
    }

    // Writes the path's nodes, from the node back to the origin, whose own entry is not looked at.
    pub(crate) fn write_back(&self, node: u16, nodes: &mut [u16])
        requires node_in_bounds { node < length self.now.column.now }
        requires count { size (path_to self.now node) ≡ Some (length nodes.old) }
        ensures { nodes.new ≡ reverse (nodes_of (path_to self.now node)) }
    {
        let mut v = node;
        for (i, slot) in nodes.iter_mut().enumerate() {
            if 0 < i {
                v = self.known_before(v);
            }
            *slot = v;
        }
    }
}
