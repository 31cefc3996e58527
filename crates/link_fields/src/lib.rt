// The fields of a link file and the bit maps that announce them, which its reader and its writer share: a field is read and put in `fields`, a bit
// map is taken from its byte and made for an arc's record in `bit_maps`, and `arcs` has what absent fields say. specs/Fields.antt says what the functions
// answer and put.
#![tactic(auto)]

pub mod arcs;
pub mod bit_maps;
pub mod fields;
