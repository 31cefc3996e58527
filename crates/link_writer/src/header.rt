// Writing the header: the node count, the origin and the wanted list. `size` and `write` stand beside one another because the size is known before
// the first byte is put: a refusal leaves the output as it was.
ghost use Rattle.std.specs.Prelude.{◌≡◌, ◌+◌, ◌≤◌, length, ◌==◌};
ghost use Rattle.std.specs.List.{list_all, enumerate_from};
ghost use Rattle.table.specs.Table.{most_wanted};
ghost use Rattle.link_format.specs.Format.{most_header, all_nodes, header_bits, nodes_bytes, wanted_bytes};
ghost use Rattle.link_fields.specs.Fields.{byte_of, Puts};

use link_fields::bit_maps::BitMap;
use link_fields::fields::{MAP_WIDTH, NODE_WIDTH, Output};

// What the header of a file is to say, with its canonical bit map.
#[derive(Clone, Copy)]
pub struct FileHeader<'a> {
    pub n: usize,
    pub origin: u16,
    pub wanted: &'a [u16],
    pub map: BitMap,
    ghost canonical: { byte_of map ≡ header_bits n origin wanted.now },
}

impl<'a> FileHeader<'a> {
    ghost use Rattle.link_writer.specs.Says.{bytes_of};

    // The header of a table of n nodes.
    pub fn new(n: usize, origin: u16, wanted: &'a [u16]) -> FileHeader<'a>
        ensures nodes { result.n ≡ n }
        ensures origin { result.origin ≡ origin }
        ensures wanted { result.wanted.now ≡ wanted.now }
    {
        let map = BitMap::of_header(usize::from(origin), is_all(n, wanted));
        FileHeader {
            n,
            origin,
            wanted,
            map,
        }
    }

    // How many bytes it has.
    pub fn size(self) -> usize
        requires { length self.wanted.now ≤ most_wanted }
        ensures same { result ≡ length (bytes_of self.entry) }
        ensures low { result ≤ most_header }
    {
        let origin = usize::from(self.map.second) * NODE_WIDTH;
        let list = usize::from(self.map.third) * (NODE_WIDTH + NODE_WIDTH * self.wanted.len());
        MAP_WIDTH + NODE_WIDTH + origin + list
    }

    // Puts it behind what is written.
    pub fn write(self, output: &mut Output)
        requires { output.old.end + length (bytes_of self) ≤ length output.old.bytes.now }
        ensures { Puts (bytes_of self.entry) output.old output.new }
    {
        output.byte(u8::from(self.map));
        output.field(NODE_WIDTH, self.n);
        output.optional(NODE_WIDTH, self.map.second, usize::from(self.origin));
        write_wanted(output, self.map.third, self.wanted);
    }
}

// Whether a list of nodes counts up from 0.
fn counts_up(nodes: &[u16]) -> bool
    ensures { result ≡ list_all (λ p. p.1 == p.0) (enumerate_from 0 nodes.now) }
{
    nodes
        .iter()
        .enumerate()
        .all(|(i, node)| usize::from(*node) == i)
}

// Whether a wanted list is all n nodes, ascending.
fn is_all(n: usize, wanted: &[u16]) -> bool
    ensures { result ≡ all_nodes n wanted.now }
{
    wanted.len() == n && counts_up(wanted)
}

// Puts the wanted nodes.
fn write_nodes(output: &mut Output, wanted: &[u16])
    requires { output.old.end + length (nodes_bytes wanted.now) ≤ length output.old.bytes.now }
    ensures { Puts (nodes_bytes wanted.now) output.old output.new }
{
    for node in wanted {
        output.field(NODE_WIDTH, usize::from(*node));
    }
}

// Puts the wanted list where it stands: its count and its nodes. For the flag see `Output::optional`.
fn write_wanted(output: &mut Output, stands: bool, wanted: &[u16])
    requires { output.old.end + length (wanted_bytes stands wanted.now) ≤ length output.old.bytes.now }
    ensures { Puts (wanted_bytes stands wanted.now) output.old output.new }
{
    if stands {
        output.field(NODE_WIDTH, wanted.len());
        write_nodes(output, wanted);
    }
}
