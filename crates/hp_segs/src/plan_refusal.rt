/// Why no run is planned for an ask, in the order in which it is judged. Own.
#[derive(Clone, Copy, PartialEq, Eq)]
pub enum PlanRefusal {
    /// The asks of the participant up to `done` are closed, and this one is of number `number`.
    StaleAsk { number: u64, done: u64 },
    /// A growth is under way, by the record of that generation.
    GrowthOpen { generation: u64 },
    /// The socket has no segment list of the page size.
    NoList,
    /// The pool has `have` free pages, and `need` are asked for.
    TooFew { have: u64, need: u64 },
    /// The longest free stretch of the list is `longest` slots, and `need` are asked for.
    ListFull { longest: u64, need: u64 },
    /// The first run lies at `addr` with `len` bytes, and the request has no place there.
    CannotHold { addr: u64, len: u64 },
}
