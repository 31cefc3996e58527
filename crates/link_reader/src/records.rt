// Reading the records of arcs. Each field's answer is taken apart by `let .. else`, as the rules ask, and a cut gets the file's length there.
ghost use Rattle.std.specs.Prelude.{◌≡◌, ◌≤◌, ◌<◌, length};
ghost use Rattle.std.proofs.lemmas.List.Edits.{sets};
ghost use Rattle.table.specs.Table.{tails_of, heads_of, lengths_of};
ghost use Rattle.link_format.specs.Format.{most_header, most_file};
ghost use Rattle.link_format.specs.Reading.{read_record};
ghost use Rattle.link_fields.specs.Fields.{arc_before};
ghost use Rattle.link_reader.specs.Says.{Reads, RecordGot, Counted, records_from, arcs_from, Fillable};

use link_fields::arcs;
use link_fields::bit_maps::BitMap;
use link_fields::fields::{LENGTH_WIDTH, MAP_WIDTH, NODE_WIDTH, Read, read_optional};
use table::MOST_ARCS;
use table::faults::{Fault, Refusal};
use table::links::Arc;

// The record at the start of a part of the file, which begins at an offset of it: its arc, and the offset of the file where the next one begins.
pub fn read_record(part: &[u8], at: usize, previous: Option<Arc>) -> Result<Read<Arc>, Refusal>
    requires { (0 < length part.now) × (at ≤ most_file) }
    ensures { Reads result (RecordGot (arc_before previous) part.now at) (read_record (arc_before previous) at part.now) }
{
    let file_length = at + part.len();
    let Some(map) = BitMap::in_record(part[0], previous) else {
        return Err(Fault::BitMap.at(at));
    };
    let absent = arcs::implied(previous);
    let Some(tail) = read_optional(part, MAP_WIDTH, NODE_WIDTH, map.first, absent.tail) else {
        return Err(Fault::Cut.at(file_length));
    };
    let Some(head) = read_optional(part, tail.next, NODE_WIDTH, map.second, absent.head) else {
        return Err(Fault::Cut.at(file_length));
    };
    let Some(length) = read_optional(part, head.next, LENGTH_WIDTH, map.third, absent.length) else {
        return Err(Fault::Cut.at(file_length));
    };
    let Ok(far) = u16::try_from(head.value) else {
        return Err(Fault::ImpliedHead.at(at));
    };
    let arc = Arc {
        tail: tail.value as u16,
        head: far,
        length: length.value as u32,
    };
    if map != BitMap::of_record(arc, previous) {
        return Err(Fault::Needless.at(at));
    }
    Ok(Read {
        value: arc,
        next: at + length.next,
    })
}

// The first pass: every record from an offset to the end of the file is read, and counted. A record is taken apart by `match`: by `?` reading took longer by
// a third (DECISIONS N10).
pub fn count_records(file: &[u8], start: usize) -> Result<usize, Refusal>
    requires { (start ≤ length file.now) × (start ≤ most_header) }
    ensures { Reads result (Counted file.now start) (records_from file.now start) }
{
    let mut at = start;
    let mut previous = None;
    for count in 0..MOST_ARCS {
        if at == file.len() {
            return Ok(count);
        }
        let Read { value: arc, next } = match read_record(&file[at..], at, previous) {
            Ok(record) => record,
            Err(refusal) => return Err(refusal),
        };
        previous = Some(arc);
        at = next;
    }
    if at < file.len() {
        return Err(Fault::Columns.at(MOST_ARCS));
    }
    Ok(MOST_ARCS)
}

// The second pass: the records, all of them good, fill the columns from their starts. It reads them by `read_record` once more, which tests them once
// more: there is one reader of records, with one proof, and no buffer may be touched before the whole file is known to be good. The columns are lent one
// by one, as by C, and one position serves the three.
pub fn fill_records(
    file: &[u8],
    start: usize,
    tails: &mut [u16],
    heads: &mut [u16],
    lengths: &mut [u32],
)
    requires { Fillable file.now start tails.old heads.old lengths.old }
    ensures tails { tails.new ≡ sets tails.old 0 (tails_of (arcs_from file.now start)) }
    ensures heads { heads.new ≡ sets heads.old 0 (heads_of (arcs_from file.now start)) }
    ensures lengths { lengths.new ≡ sets lengths.old 0 (lengths_of (arcs_from file.now start)) }
{
    let mut at = start;
    let mut previous = None;
    for i in 0..MOST_ARCS {
        if at == file.len() {
            return;
        }
        let Ok(Read { value: arc, next }) = read_record(&file[at..], at, previous) else {
            return;
        };
        tails[i] = arc.tail;
        heads[i] = arc.head;
        lengths[i] = arc.length;
        previous = Some(arc);
        at = next;
    }
}
