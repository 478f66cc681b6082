// The fields of a message body by its presence map (document 01, the reader's order 7 to 10): which positions a
// type does not know, which it misses, each field checked by its sort, the walk over all of them in rising position,
// the cut from field to field of a body, the value at one position, and a field's plain form.
//
// Every public function takes any map and any body. Of a map the positions 0 to 255 count, and those past its end
// are clear. A message type, a map and a body stand as three parameters and in no struct: most functions take two of them, or a
// body's end in place of the body.
#![tactic(auto)]

pub mod check;
pub mod cut;
pub mod plain;
pub mod sets;
pub mod value;
pub mod walk;
mod words;
