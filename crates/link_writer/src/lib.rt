// Writing a table as a link file: the size and the bytes of its header in `header`, of its records in `records`. Crate `link_file` puts the parts
// together.
#![tactic(auto)]

pub mod header;
pub mod records;
