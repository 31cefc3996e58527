// Fields of so many bytes, the lowest byte first.
ghost use Rattle.std.specs.Prelude.{◌≡◌, ◌+◌, ◌≤◌, [], ◌∷◌, max, length};
ghost use Rattle.link_format.specs.Format.{length_width, limit, bytes, field_bytes};
ghost use Rattle.link_format.specs.Reading.{field, optional};
ghost use Rattle.link_fields.specs.Fields.{FieldSays, Puts};

// The bytes of a bit map, of a node's number or a count, and of a length.
pub const MAP_WIDTH: usize = 1;

pub const NODE_WIDTH: usize = 2;

pub const LENGTH_WIDTH: usize = 4;

// A byte is below this.
const BYTE_LIMIT: usize = 256;

// What was read, and the next offset.
#[derive(Clone, Copy)]
pub struct Read<T> {
    pub value: T,
    pub next: usize,
}

// The field of so many bytes at an offset of a part of the file, unless the part ends inside it. The number is made by a loop, and not by std's
// `from_le_bytes`, because the width is a parameter: one field with one proof serves all widths. The part and the offset are handed on side by side,
// and no slice that begins at the field, since places are offsets of the file.
pub fn read_field(part: &[u8], from: usize, width: usize) -> Option<Read<usize>>
    requires { (from ≤ length part.now) × (width ≤ length_width) }
    ensures { FieldSays result (field width) part.now from width (limit width) }
{
    if part.len() - from < width {
        return None;
    }
    let mut value = 0;
    for byte in part[from..from + width].iter().rev() {
        value = value * BYTE_LIMIT + usize::from(*byte);
    }
    Some(Read {
        value,
        next: from + width,
    })
}

// A field that may be absent, and what its absence says. An Option in place of the last two would be made of them at each call.
pub fn read_optional(
    part: &[u8],
    from: usize,
    width: usize,
    stands: bool,
    absent: usize,
) -> Option<Read<usize>>
    requires { (from ≤ length part.now) × (width ≤ length_width) }
    ensures { FieldSays result (optional stands width absent) part.now from width (max (limit width) (absent + 1)) }
{
    if stands {
        return read_field(part, from, width);
    }
    Some(Read {
        value: absent,
        next: from,
    })
}

// The output, and how many bytes of it are written so far. Without a heap there is no Vec: each put asks for the room of what it puts.
#[derive(Drop)]
pub struct Output<'a> {
    pub bytes: &'a mut [u8],
    pub end: usize,
}

impl<'a> Output<'a> {
    // Puts a byte behind what is written.
    pub fn byte(&mut self, value: u8)
        requires { self.old.end + 1 ≤ length self.old.bytes.now }
        ensures { Puts (value ∷ []) self.old self.new }
    {
        self.bytes[self.end] = value;
        self.end += 1;
    }

    // Puts a number of so many bytes, by a loop and not by std's `to_le_bytes`, because the width is a parameter, as in `read_field`.
    pub fn field(&mut self, width: usize, value: usize)
        requires { self.old.end + width ≤ length self.old.bytes.now }
        ensures { Puts (bytes width value) self.old self.new }
    {
        let next = self.end + width;
        let mut left = value;
        for byte in self.bytes[self.end..next].iter_mut() {
            *byte = (left % BYTE_LIMIT) as u8;
            left /= BYTE_LIMIT;
        }
        self.end = next;
    }

    // Puts a field where it stands. An Option in place of the last two would be made of them at each call.
    pub fn optional(&mut self, width: usize, stands: bool, value: usize)
        requires { self.old.end + length (field_bytes stands width value) ≤ length self.old.bytes.now }
        ensures { Puts (field_bytes stands width value) self.old self.new }
    {
        if stands {
            self.field(width, value);
        }
    }
}
