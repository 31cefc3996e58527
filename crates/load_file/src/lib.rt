// The link file of a test load: which one the words behind a program's name ask for, and its bytes. specs/LoadFile.antt says which words ask for one, and which
// bytes it has; crate test_load says which load.
#![tactic(auto)]

ghost use Rattle.std.specs.Prelude.{◌≡◌, ◌≤◌, map, IfOk, string_bytes};
ghost use Rattle.link_format.specs.Format.{most_file};
ghost use Rattle.link_file.specs.Says.{file_answer};
ghost use Rattle.load_file.specs.LoadFile.{load_file_of, load_file_in, WritesLoadFile};

use link_reader::header::fill_all;
use table::faults::{Fault, Refusal};
use table::{MOST_ARCS, MOST_NODES};

// Which one it is: the numbers of the test load, and the origin of its table. The fields stand as the words do.
#[derive(Clone, Copy)]
pub struct LoadFile {
    pub seed: u32,
    pub n: u32,
    pub chance: u32,
    pub largest: u32,
    pub origin: u16,
}

impl LoadFile {
    // By five words, each a number.
    #[tactic(auto, using(crate::proofs::Words::parsed), unfolding(crate::specs::LoadFile::load_file_of, crate::specs::LoadFile::of_numbers))]
    fn of(seed: &str, n: &str, chance: &str, largest: &str, origin: &str) -> Option<LoadFile>
        ensures { result ≡ load_file_of seed.now n.now chance.now largest.now origin.now }
    {
        Some(LoadFile {
            seed: seed.parse().ok()?,
            n: n.parse().ok()?,
            chance: chance.parse().ok()?,
            largest: largest.parse().ok()?,
            origin: origin.parse().ok()?,
        })
    }

    // By the words behind a program's name. Where there is no fifth word the origin is node 0.
    #[tactic(auto, using(crate::proofs::Words::too_few, crate::proofs::Words::too_many))]
    pub fn read(words: &[String]) -> Option<LoadFile>
        ensures { result ≡ load_file_in (map string_bytes words.now) }
    {
        match words {
            [seed, n, chance, largest] => LoadFile::of(seed, n, chance, largest, "0"),
            [seed, n, chance, largest, origin] => LoadFile::of(seed, n, chance, largest, origin),
            _ => None,
        }
    }

    // Makes the load and puts its link file at the start of the output, and gives the file's length. The rest is left as it was, and a refusal leaves all
    // as it was.
    pub fn write(self, output: &mut [u8]) -> Result<usize, Refusal>
        ensures answer { WritesLoadFile self output (file_answer result) }
        ensures low { IfOk result (λ size. size ≤ most_file) }
    {
        let mut tails = [0; MOST_ARCS];
        let mut heads = [0; MOST_ARCS];
        let mut lengths = [0; MOST_ARCS];
        let arcs = load_maker::make(
            self.n,
            self.seed,
            self.chance,
            self.largest,
            &mut tails,
            &mut heads,
            &mut lengths,
        )?;
        let n = self.n as usize;
        table::check_node(n, self.origin, Fault::Origin)?;
        let mut wanted = [0; MOST_NODES];
        fill_all(n, &mut wanted);
        link_file::write_file(
            n,
            self.origin,
            &tails[..arcs],
            &heads[..arcs],
            &lengths[..arcs],
            &wanted[..n],
            output,
        )
    }
}
