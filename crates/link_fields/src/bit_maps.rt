// Bit maps: which of three fields stand in a header or in a record.
ghost use Rattle.std.specs.Prelude.{◌≡◌, List, ℕ, ◌<◌};
ghost use Rattle.table.specs.Lent.{arc_of};
ghost use Rattle.link_format.specs.Format.{all_nodes, header_bits, record_bits};
ghost use Rattle.link_format.specs.Reading.{forbidden, forbidden_header};
ghost use Rattle.link_fields.specs.Fields.{arc_before, byte_of, MapSays};

use table::links::Arc;

// Which fields stand. A header's are its node count, its origin and its wanted list, a record's its tail, its head and its length.
#[derive(Clone, Copy, PartialEq, Eq)]
pub struct BitMap {
    pub first: bool,
    pub second: bool,
    pub third: bool,
}

impl From<BitMap> for u8 {
    ghost from_gives = { λ map byte. byte ≡ byte_of map };

    fn from(map: BitMap) -> u8 {
        u8::from(map.first) + 2 * u8::from(map.second) + 4 * u8::from(map.third)
    }
}

// A bit map has no TryFrom of a byte, since which bits may stand depends on whether the byte is a header's or a record's.
impl BitMap {
    // The bit map in a byte with no other bits.
    fn in_byte(byte: u8) -> BitMap
        requires { byte < 8 }
        ensures { byte ≡ byte_of result }
    {
        BitMap {
            first: byte % 2 == 1,
            second: byte / 2 % 2 == 1,
            third: byte / 4 % 2 == 1,
        }
    }

    // A header's bit map, unless its node count is missing or another bit stands.
    pub fn in_header(byte: u8) -> Option<BitMap>
        ensures { MapSays result (forbidden_header byte) byte }
    {
        match byte {
            1 | 3 | 5 | 7 => Some(BitMap::in_byte(byte)),
            0..=255 => None,
        }
    }

    // A header's canonical bit map: its origin stands unless it is 0, its wanted list unless that is all nodes ascending.
    pub fn of_header(origin: usize, all: bool) -> BitMap
        ensures { (n : ℕ) (wanted : List ℕ) → all ≡ all_nodes n wanted → byte_of result ≡ header_bits n origin wanted }
    {
        BitMap {
            first: true,
            second: origin != 0,
            third: !all,
        }
    }

    // A record's bit map, unless a field of the first record is missing or another bit stands.
    pub fn in_record(byte: u8, previous: Option<Arc>) -> Option<BitMap>
        ensures { MapSays result (forbidden (arc_before previous) byte) byte }
    {
        match byte {
            0..=6 if previous.is_none() => None,
            0..=7 => Some(BitMap::in_byte(byte)),
            8..=255 => None,
        }
    }

    // The canonical bit map of an arc's record, given the arc of the record before.
    pub fn of_record(arc: Arc, previous: Option<Arc>) -> BitMap
        ensures { byte_of result ≡ record_bits (arc_before previous) (arc_of arc) }
    {
        match previous {
            None => BitMap {
                first: true,
                second: true,
                third: true,
            },
            Some(p) => BitMap {
                first: arc.tail != p.tail,
                second: usize::from(arc.head) != usize::from(p.head) + 1,
                third: arc.length != p.length,
            },
        }
    }
}
