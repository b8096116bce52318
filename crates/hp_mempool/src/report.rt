use std::fmt;

// What is written of an exercise: how many objects there are, how many calls the workers made, and how many objects came back.
#[derive(Clone, Copy)]
pub(crate) struct Report {
    pub(crate) objects: u32,
    pub(crate) calls: u32,
    pub(crate) home: usize,
}

impl fmt::Display for Report {
    ghost use Rattle.std.specs.Prelude.{Some};
    ghost use Rattle.hp_mempool.specs.Program.{report_text};

    ghost output = { λ report. Some (report_text report) };

    fn fmt<W: fmt::Write>(&self, f: &mut fmt::Formatter<W>) -> fmt::Result {
        let Report {
            objects,
            calls,
            home,
        } = self;
        write!(f, "objects {objects}\ncalls {calls}\nhome {home}\n")
    }
}
