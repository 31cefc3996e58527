// Reading a link file: its header in `header`, its records in `records`, first tested and counted, then filled into buffers. Crate `link_file` puts the
// parts together; specs/Says.antt says what the functions answer.
#![tactic(auto)]

pub mod header;
pub mod records;
