// The program: writes the test load that its words ask for as a link file on standard output. It only moves words and bytes: which words
// ask for one, and which bytes it has, is defined in crates/load_file (specs/LoadFile.antt), whose two functions are called once each.
#![tactic(auto)]

use load_file::LoadFile;
use std::env;
use std::process::ExitCode;

// The system's number of standard output, as the kit's `io` takes it.
const STANDARD_OUTPUT: i32 = 1;

// The statuses where the words ask for none, and where standard output does not take the file. A refusal's status is its number.
const USAGE: u8 = 64;

const NOT_TAKEN: u8 = 74;

// What the words behind the program's name ask for. A word that is no text is no number.
fn read_words(rt: &HostRuntime) -> Option<LoadFile> {
    let words: Vec<String> = env::args(rt).ok()?.skip(1).collect(rt.alloc()).ok()?;
    LoadFile::read(&words)
}

fn main(rt: HostRuntime) -> ExitCode {
    let Some(file) = read_words(&rt) else {
        let _ = eprintln!(rt; "usage: load SEED N CHANCE LARGEST [ORIGIN]");
        return ExitCode::from(USAGE);
    };
    let mut output = io::large_buffer();
    match file.write(&mut output) {
        Ok(size) => {
            if !io::write_all(STANDARD_OUTPUT, &output[..size]) {
                return ExitCode::from(NOT_TAKEN);
            }
            ExitCode::SUCCESS
        }
        Err(refusal) => {
            let number = refusal.fault as u8;
            let _ = eprintln!(rt; "refused {number} at {}", refusal.place);
            ExitCode::from(number)
        }
    }
}
