//! The names of memory: memzones by name, and the directory of the heaps' names and of the ranges of external heaps.
#![tactic(auto)]

mod asked;
mod directory;
mod fault;
mod heap_name;
mod heaps;
mod laws;
mod limits;
mod name_change;
mod names;
mod opening;
mod places;
mod zone;
mod zones;

pub use directory::Directory;
pub use fault::{NotFound, ZoneFault};
pub use heap_name::{HeapName, HeapRange};
pub use laws::{names_law, replay_law, short_names_law};
pub use limits::{FIRST_EXTERNAL_SOCKET, MAX_ZONE_NAME, MAX_ZONES};
pub use name_change::NameChange;
pub use names::Names;
pub use zone::{Zone, ZoneChange};
pub use zones::Zones;
