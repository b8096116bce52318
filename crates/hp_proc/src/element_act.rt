use hp_base::Run;
use hp_script::Answer;

/// What a line does with the element that it looks for. Own.
#[derive(Clone, Copy)]
pub(crate) enum ElementAct {
    /// It is freed.
    Free,
    /// It gets another size, but for a memzone's.
    Resize { zone: bool, size: u64 },
}

/// What is left of such a line when its heap is given back. Own.
#[derive(Clone, Copy)]
pub(crate) enum Left {
    /// Its answer.
    Answered { answer: Answer },
    /// The coordinator has to be told that this run was given up.
    GaveUp { run: Run },
}
