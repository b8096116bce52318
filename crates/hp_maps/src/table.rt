use hp_base::Row;

/// What a participant's table was at the end of a run: whether it was attached, how many records it had taken in, and the
/// rows that it had mapped. Own.
#[derive(Drop)]
pub struct Table {
    pub joined: bool,
    pub number: u64,
    pub rows: Vec<Row>,
}
