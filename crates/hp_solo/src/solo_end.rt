use hp_events::Watchers;
use hp_maps::Table;
use hp_plain::PlainHall;

/// What a hall in which participants take turns in one thread leaves at its end. Own.
#[derive(Drop)]
pub struct SoloEnd {
    /// The tables of the participants, by number.
    pub tables: Vec<Table>,
    /// The watchers of each participant, by number.
    pub watchers: Vec<Watchers>,
    /// The plain values.
    pub plain: PlainHall,
}
