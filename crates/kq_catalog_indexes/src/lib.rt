//! Two indexes of a catalogue. One leads from names to their numbers: the first name has number 0, the next 1, and so on; it is made anew where a
//! name comes in. The other leads from the tags of tables to cursors; a second one with one tag more shares all but a few nodes with the first.
//! Who reads an older index still finds what it holds. What is named, what the cursors tell, and how long an index is kept, is left to the crates
//! above.
#![tactic(auto)]

mod entry;
mod names;
mod tag_entry;
mod tag_tree;
mod tags;

pub use names::Names;
pub use tags::TagIndex;
