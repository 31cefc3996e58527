// Writing the records of arcs. `record_size` and `write_record` stand beside one another, and so do `records_size` and `write_records`, because the
// size is known before the first byte is put: a refusal leaves the output as it was.
ghost use Rattle.std.specs.Prelude.{◌≡◌, ◌*◌, ◌+◌, ◌≤◌, length};
ghost use Rattle.std.proofs.Math.Option.{none};
ghost use Rattle.table.specs.Table.{most_arcs};
ghost use Rattle.table.specs.Lent.{arc_of};
ghost use Rattle.link_format.specs.Format.{most_record, record_bytes, records_bytes};
ghost use Rattle.link_fields.specs.Fields.{arc_before, Puts};
ghost use Rattle.link_writer.specs.Says.{arcs_in};

use link_fields::bit_maps::BitMap;
use link_fields::fields::{LENGTH_WIDTH, MAP_WIDTH, NODE_WIDTH, Output};
use table::links::{Arc, Columns};

// The size of an arc's record.
fn record_size(previous: Option<Arc>, arc: Arc) -> usize
    ensures same { result ≡ length (record_bytes (arc_before previous) (arc_of arc)) }
    ensures low { result ≤ most_record }
{
    let map = BitMap::of_record(arc, previous);
    let tail = usize::from(map.first) * NODE_WIDTH;
    let head = usize::from(map.second) * NODE_WIDTH;
    let length = usize::from(map.third) * LENGTH_WIDTH;
    MAP_WIDTH + tail + head + length
}

// The size of all records.
pub fn records_size(columns: Columns) -> usize
    ensures same { result ≡ length (records_bytes none (arcs_in columns.entry)) }
    ensures low { result ≤ most_record * most_arcs }
{
    let mut size = 0;
    let mut previous = None;
    for i in 0..columns.tails.len() {
        let arc = columns.arc(i);
        size += record_size(previous, arc);
        previous = Some(arc);
    }
    size
}

// Puts one record.
fn write_record(output: &mut Output, previous: Option<Arc>, arc: Arc)
    requires { output.old.end + length (record_bytes (arc_before previous) (arc_of arc)) ≤ length output.old.bytes.now }
    ensures { Puts (record_bytes (arc_before previous) (arc_of arc)) output.old output.new }
{
    let map = BitMap::of_record(arc, previous);
    output.byte(u8::from(map));
    output.optional(NODE_WIDTH, map.first, usize::from(arc.tail));
    output.optional(NODE_WIDTH, map.second, usize::from(arc.head));
    output.optional(LENGTH_WIDTH, map.third, arc.length as usize);
}

// Puts all records.
pub fn write_records(output: &mut Output, columns: Columns)
    requires { output.old.end + length (records_bytes none (arcs_in columns)) ≤ length output.old.bytes.now }
    ensures { Puts (records_bytes none (arcs_in columns.entry)) output.old output.new }
{
    let mut previous = None;
    for i in 0..columns.tails.len() {
        let arc = columns.arc(i);
        write_record(output, previous, arc);
        previous = Some(arc);
    }
}
