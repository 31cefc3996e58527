// Reading the header: the node count, the origin and the wanted list. Each field's answer is taken apart by `let .. else`, as the rules ask, and a
// cut gets the file's length there. The file and an offset are handed on side by side, since places are offsets of the file.
ghost use Rattle.std.specs.Prelude.{◌≡◌, ◌+◌, ◌*◌, ◌≤◌, length, drop};
ghost use Rattle.std.proofs.lemmas.List.Edits.{sets};
ghost use Rattle.table.specs.Table.{most_nodes, most_wanted};
ghost use Rattle.link_format.specs.Format.{map_width, node_width, count_up};
ghost use Rattle.link_format.specs.Reading.{read_nodes, read_wanted, read_header};
ghost use Rattle.link_reader.specs.Says.{Reads, nodes_in, wanted_of, NodesGot, WantedGot, HeaderGot};

use link_fields::bit_maps::BitMap;
use link_fields::fields::{MAP_WIDTH, NODE_WIDTH, Read, read_field, read_optional};
use table::faults::{Fault, Refusal};

// What a header says: the nodes, the origin, how many nodes are wanted, where these are listed if they are, and the offset of the first record.
#[derive(Clone, Copy)]
pub struct Header {
    pub n: usize,
    pub origin: u16,
    pub wanted: usize,
    pub listed_at: Option<usize>,
    pub next: usize,
}

// What a wanted list says: how many nodes it has, where these are listed if they are, whether it is all nodes ascending, and the next offset.
#[derive(Clone, Copy)]
pub struct Wanted {
    pub count: usize,
    pub listed_at: Option<usize>,
    pub all: bool,
    pub next: usize,
}

// Every one of so many nodes is read, and compared with its index: whether they count up from 0, and the next offset.
fn check_nodes(file: &[u8], from: usize, count: usize) -> Result<Read<bool>, Refusal>
    requires inside { from ≤ length file.now }
    requires near { from ≤ map_width + node_width + node_width + node_width }
    requires few { count ≤ most_wanted }
    ensures { Reads result (NodesGot file.now from count) (read_nodes count from (drop from file.now)) }
{
    let mut next = from;
    let mut ascending = true;
    for i in 0..count {
        let Some(node) = read_field(file, next, NODE_WIDTH) else {
            return Err(Fault::Cut.at(file.len()));
        };
        ascending &= node.value == i;
        next = node.next;
    }
    Ok(Read {
        value: ascending,
        next,
    })
}

// The wanted list of n nodes. Whether it is listed comes beside n, which its absence says, as in `read_optional`.
fn read_wanted(file: &[u8], from: usize, listed: bool, n: usize) -> Result<Wanted, Refusal>
    requires inside { from ≤ length file.now }
    requires near { from ≤ map_width + node_width + node_width }
    requires few { n ≤ most_nodes }
    ensures { Reads result (WantedGot file.now from listed n) (read_wanted listed n from (drop from file.now)) }
{
    if !listed {
        return Ok(Wanted {
            count: n,
            listed_at: None,
            all: true,
            next: from,
        });
    }
    let Some(count) = read_field(file, from, NODE_WIDTH) else {
        return Err(Fault::Cut.at(file.len()));
    };
    table::check_wanted_count(count.value)?;
    let Read {
        value: ascending,
        next,
    } = check_nodes(file, count.next, count.value)?;
    Ok(Wanted {
        count: count.value,
        listed_at: Some(count.next),
        all: count.value == n && ascending,
        next,
    })
}

// The header at the start of a file.
pub fn read_header(file: &[u8]) -> Result<Header, Refusal>
    ensures { Reads result (HeaderGot file.now) (read_header 0 file.now) }
{
    if file.is_empty() {
        return Err(Fault::Cut.at(0));
    }
    let Some(map) = BitMap::in_header(file[0]) else {
        return Err(Fault::BitMap.at(0));
    };
    let Some(n) = read_field(file, MAP_WIDTH, NODE_WIDTH) else {
        return Err(Fault::Cut.at(file.len()));
    };
    table::check_count(n.value)?;
    let Some(origin) = read_optional(file, n.next, NODE_WIDTH, map.second, 0) else {
        return Err(Fault::Cut.at(file.len()));
    };
    let wanted = read_wanted(file, origin.next, map.third, n.value)?;
    let canonical = BitMap::of_header(origin.value, wanted.all);
    if map != canonical {
        return Err(Fault::Needless.at(0));
    }
    Ok(Header {
        n: n.value,
        origin: origin.value as u16,
        wanted: wanted.count,
        listed_at: wanted.listed_at,
        next: wanted.next,
    })
}

// The wanted nodes that a header lists, at the start of a buffer. They are read once more, as nothing may be filled before the whole file is known to
// be good; the offset is that of the file.
fn fill_nodes(file: &[u8], from: usize, count: usize, wanted: &mut [u16])
    requires count_in_bounds { from + node_width * count ≤ length file.now }
    requires room { count ≤ length wanted.old }
    ensures { wanted.new ≡ sets wanted.old 0 (nodes_in count (drop from file.now)) }
{
    let mut next = from;
    for wanted_node in wanted[..count].iter_mut() {
        let Some(node) = read_field(file, next, NODE_WIDTH) else {
            return;
        };
        *wanted_node = node.value as u16;
        next = node.next;
    }
}

// All n nodes, ascending, at the start of a buffer.
pub fn fill_all(n: usize, wanted: &mut [u16])
    requires { (n ≤ most_nodes) × (n ≤ length wanted.old) }
    ensures { wanted.new ≡ sets wanted.old 0 (count_up 0 n) }
{
    for (i, node) in wanted[..n].iter_mut().enumerate() {
        *node = i as u16;
    }
}

// The wanted list of a header that was read, at the start of a buffer.
pub fn fill_wanted(file: &[u8], header: Header, wanted: &mut [u16])
    requires { HeaderGot file.now header × (header.wanted ≤ length wanted.old) }
    ensures { wanted.new ≡ sets wanted.old 0 (wanted_of file.now header) }
{
    match header.listed_at {
        Some(from) => fill_nodes(file, from, header.wanted, wanted),
        None => fill_all(header.n, wanted),
    }
}
