// A line that is put together at the start of a buffer, from texts and numbers. What std's fmt writes is promised where it says Ok, and no contract says that
// it does. It is no `Output` of link_fields: methods stand where their type does, so that one type would have the sheet's and the file's in one crate.
ghost use Rattle.std.specs.Prelude.{◌≡◌, ◌++◌, ◌+◌, ◌≤◌, length};
ghost use Rattle.table.specs.Table.{most_nodes};
ghost use Rattle.sheet.specs.Text.{decimal};
ghost use Rattle.sheet.specs.Sheet.{arc_text};
ghost use Rattle.sheet_lines.specs.Buffers.{Extends, Puts, PutsSpaced};
ghost use Rattle.sheet_lines.specs.Room.{most_digits, most_path};

use table::NO_ARC;

// The most digits a number has.
const MOST_DIGITS: usize = 20;

// The buffer, and how many bytes of it the line has so far; there is no heap for a Vec. Each method asks for the room of what it puts.
#[derive(Drop)]
pub struct Line<'a> {
    pub out: &'a mut [u8],
    pub end: usize,
}

impl<'a> Line<'a> {
    // Puts a text behind what the line has.
    pub(crate) fn text(&mut self, text: &[u8])
        requires { self.old.end + length text.now ≤ length self.old.out.now }
        ensures puts { Puts text.now self.old self.new }
        ensures long { self.new.end ≡ self.old.end + length text.now }
    {
        let next = self.end + text.len();
        self.out[self.end..next].copy_from_slice(text);
        self.end = next;
    }

    // Puts a number in decimal: the kit's digits, of which it answers how many there are.
    pub(crate) fn number(&mut self, n: u64)
        requires { self.old.end + most_digits ≤ length self.old.out.now }
        ensures puts { Puts (decimal n) self.old self.new }
        ensures long { self.new.end ≤ self.old.end + most_digits }
    {
        let mut digits = [0u8; MOST_DIGITS];
        let k = io::decimal(n, &mut digits);
        self.text(&digits[..k]);
    }

    // Puts a text and then a number in decimal.
    pub(crate) fn field(&mut self, name: &[u8], n: u64)
        requires { self.old.end + (length name.now + most_digits) ≤ length self.old.out.now }
        ensures puts { Extends (λ with. with ++ name.now ++ decimal n) self.old self.new }
        ensures long { self.new.end ≤ self.old.end + (length name.now + most_digits) }
    {
        self.text(name);
        self.number(n);
    }

    // Puts an arc's position, or "-" where there is no arc.
    #[tactic(auto, unfolding(sheet::specs::Sheet::arc_text))]
    pub(crate) fn arc(&mut self, arc: u16)
        requires { self.old.end + most_digits ≤ length self.old.out.now }
        ensures puts { Puts (arc_text arc) self.old self.new }
        ensures long { self.new.end ≤ self.old.end + most_digits }
    {
        if arc == NO_ARC {
            self.text(b"-");
        } else {
            self.number(u64::from(arc));
        }
    }

    // Puts the numbers of nodes, each after a space.
    pub(crate) fn spaced(&mut self, nodes: &[u16])
        requires nodes_len_bound { length nodes.now ≤ most_nodes }
        requires most_path_in_bounds { self.old.end + most_path ≤ length self.old.out.now }
        ensures puts { PutsSpaced nodes.now self.old self.new }
        ensures long { self.new.end ≤ self.old.end + most_path }
    {
        for &node in nodes {
            self.field(b" ", u64::from(node));
        }
    }
}
