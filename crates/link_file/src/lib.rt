// The link file of a table: reader and writer, over the parts of crates `link_reader` and `link_writer`. Crate `link_format` says what bytes a table has and
// what reading bytes gives; specs/Entries.antt says what the two entries answer. Their parameters are C's, one by one; `read_table` fills
// the buffers among them.
#![tactic(auto)]

ghost use Rattle.std.specs.Prelude.{◌≡◌, ◌≤◌, IfOk};
ghost use Rattle.table.specs.Table.{most_nodes, most_arcs, most_wanted};
ghost use Rattle.table.specs.Told.{tells};
ghost use Rattle.link_format.specs.Buffers.{too_short, no_content};
ghost use Rattle.link_format.specs.Format.{most_file};
ghost use Rattle.link_file.specs.Entries.{read_answer, ReadsFile, write_answer, WritesFile};
ghost use Rattle.link_file.specs.Says.{table_answer, file_answer};

use link_fields::fields::Output;
use link_reader::header::{Header, fill_wanted, read_header};
use link_reader::records::{count_records, fill_records};
use link_writer::header::FileHeader;
use link_writer::records::{records_size, write_records};
use table::MOST_WANTED;
use table::faults::{Fault, Refusal};

// What reading a link file answers: the refusal's number and place, both 0 where there is none, and the node count, the origin and how many
// arcs and wanted nodes there are, all 0 in a refusal. C reads it, so it is numbers and no Result, with the counts beside the buffers.
#[repr(C)]
#[derive(Clone, Copy)]
pub struct TableRead {
    pub number: u32,
    pub place: u32,
    pub n: u32,
    pub origin: u16,
    pub arcs: u32,
    pub wanted: u32,
}

// What writing a link file answers: the refusal's number and place, both 0 where there is none, and the file's length, 0 in a refusal. C reads it, so
// it is numbers and no Result.
#[repr(C)]
#[derive(Clone, Copy)]
pub struct Written {
    pub number: u32,
    pub place: u32,
    pub length: u32,
}

// The answer to a file that is refused: no table.
impl From<Refusal> for TableRead {
    ghost from_gives = { λ refusal answer. answer ≡ read_answer (tells refusal) no_content };

    fn from(refusal: Refusal) -> TableRead {
        TableRead {
            number: refusal.fault.number(),
            place: refusal.place,
            n: 0,
            origin: 0,
            arcs: 0,
            wanted: 0,
        }
    }
}

// The answer where nothing is written.
impl From<Refusal> for Written {
    ghost from_gives = { λ refusal answer. answer ≡ write_answer (tells refusal) 0 };

    fn from(refusal: Refusal) -> Written {
        Written {
            number: refusal.fault.number(),
            place: refusal.place,
            length: 0,
        }
    }
}

// 3: a lent buffer is too short.
#[tactic(auto, unfolding(link_format::specs::Buffers::too_short))]
fn short(tails: usize, heads: usize, lengths: usize, wanted: usize) -> bool
    ensures { result ≡ too_short tails heads lengths wanted }
{
    table::short_columns(tails, heads, lengths) || wanted < MOST_WANTED
}

// Reads the header and counts the arcs, and fills the buffers.
fn read_table(
    file: &[u8],
    tails: &mut [u16],
    heads: &mut [u16],
    lengths: &mut [u32],
    wanted: &mut [u16],
) -> Result<(Header, usize), Refusal>
    ensures answer { ReadsFile file tails heads lengths wanted (table_answer result) }
    ensures few { IfOk result (λ t. (t.0.n ≤ most_nodes) × (t.0.wanted ≤ most_wanted) × (t.1 ≤ most_arcs)) }
{
    if short(tails.len(), heads.len(), lengths.len(), wanted.len()) {
        return Err(Fault::Buffers.at(0));
    }
    let header = read_header(file)?;
    let arcs = count_records(file, header.next)?;
    fill_wanted(file, header, wanted);
    fill_records(file, header.next, tails, heads, lengths);
    Ok((header, arcs))
}

// Reads a link file: the arcs go to the starts of the three columns, which are at least 6,000 long, the wanted nodes to the start of a buffer of
// at least 1,024. A refusal leaves every buffer as it was: the whole file is validated before anything is filled.
pub fn read_link_file(
    file: &[u8],
    tails: &mut [u16],
    heads: &mut [u16],
    lengths: &mut [u32],
    wanted: &mut [u16],
) -> TableRead
    ensures { ReadsFile file tails heads lengths wanted result }
{
    match read_table(file, tails, heads, lengths, wanted) {
        Ok((header, arcs)) => TableRead {
            number: 0,
            place: 0,
            n: header.n as u32,
            origin: header.origin,
            arcs: arcs as u32,
            wanted: header.wanted as u32,
        },
        Err(refusal) => TableRead::from(refusal),
    }
}

// Puts the file's bytes, and gives how many there are. The columns come as C lends them, and are one where they have been tested.
pub fn write_file(
    n: usize,
    origin: u16,
    tails: &[u16],
    heads: &[u16],
    lengths: &[u32],
    wanted: &[u16],
    output: &mut [u8],
) -> Result<usize, Refusal>
    ensures answer { WritesFile n origin tails heads lengths wanted output (file_answer result) }
    ensures low { IfOk result (λ size. size ≤ most_file) }
{
    table::check_count(n)?;
    let columns = table::check_columns(tails, heads, lengths)?;
    table::check_wanted_count(wanted.len())?;
    let header = FileHeader::new(n, origin, wanted);
    let size = header.size() + records_size(columns);
    if output.len() < size {
        return Err(Fault::Room.at(0));
    }
    let mut written = Output {
        bytes: output,
        end: 0,
    };
    header.write(&mut written);
    write_records(&mut written, columns);
    Ok(size)
}

// Writes a table as a link file at the start of the output and gives the file's length. A refusal leaves the output as it was. The elements of
// the columns are not tested: what a planner would refuse is written, and read back, as it is.
pub fn write_link_file(
    n: u32,
    origin: u16,
    tails: &[u16],
    heads: &[u16],
    lengths: &[u32],
    wanted: &[u16],
    output: &mut [u8],
) -> Written
    ensures { WritesFile n origin tails heads lengths wanted output result }
{
    match write_file(n as usize, origin, tails, heads, lengths, wanted, output) {
        Ok(size) => Written {
            number: 0,
            place: 0,
            length: size as u32,
        },
        Err(refusal) => Written::from(refusal),
    }
}
