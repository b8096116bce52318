use hp_base::Run;

/// What came of an ask for pages that was sent. Own.
#[derive(Clone, Copy)]
pub struct Answered {
    /// The run that was granted, which is the heap's from then on, or none.
    pub run: Option<Run>,
    /// Somebody met a refusal of memory while the participant waited: it does no further line.
    pub stopped: bool,
}
