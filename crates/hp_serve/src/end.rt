use hp_events::Watchers;
use hp_maps::Table;

/// What a participant leaves at the end of a run. Own.
#[derive(Drop)]
pub struct End {
    /// Its table as it stands.
    pub table: Table,
    /// Its watchers, in the order of their registration, each with what it was told since.
    pub watchers: Watchers,
}
