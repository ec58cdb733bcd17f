// The records of the trail. write: a record's two words, and those of a settling. undo: each kind of record undone, the last one first.
#![tactic(auto)]

pub mod undo;
pub mod write;
