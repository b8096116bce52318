//! External heaps: heaps that are made by name, and the memory that is brought to them, over the names, one heap, the segment value and
//! the table of a participant.
#![tactic(auto)]

mod adding;
mod attaching;
mod creating;
mod fault;
mod laws;
mod looks;
mod naming;
mod removing;

pub use adding::memory_add;
pub use attaching::{memory_attach, memory_detach, memory_leave};
pub use creating::{create, destroy, place_for};
pub use fault::{
    AddFault, AttachFault, ChunkFault, CreateFault, DestroyFault, DetachFault, NameFault,
    RemoveFault,
};
pub use laws::beside_law;
pub use naming::{chunk_heap, external_heap};
pub use removing::memory_remove;
