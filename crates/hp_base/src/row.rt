ghost use Rattle.std.specs.Prelude.{◌≡◌, ◌^◌, ◌<◌};

/// A mapped segment: a slot of a segment list with the generation of the record that mapped it (0 for external
/// memory). `addr` and `page` are bytes. After rte_memseg.
#[derive(Clone, Copy, PartialEq, Eq)]
pub struct Row {
    pub addr: u64,
    pub page: u64,
    pub socket: u32,
    pub list: u32,
    pub slot: u32,
    pub generation: u64,
}

/// Adjacent slots of one segment list: `count` pages of `page` bytes each, from `addr` and slot `first` on.
/// After the runs of segments that rte_malloc maps and unmaps as one.
#[derive(Clone, Copy, PartialEq, Eq)]
pub struct Run {
    pub list: u32,
    pub first: u32,
    pub count: u32,
    pub addr: u64,
    pub page: u64,
    pub socket: u32,
}

impl Run {
    ghost use Rattle.hp_base.specs.Extents.{run_bytes, run_end};

    /// Its bytes: those of all its pages. Own.
    pub fn bytes(&self) -> u64
        requires { run_bytes self.now < 2 ^ 64 }
        ensures { result ≡ run_bytes self.now }
    {
        u64::from(self.count) * self.page
    }

    /// The address behind its last byte. Own.
    pub fn end(&self) -> u64
        requires { run_end self.now < 2 ^ 64 }
        ensures { result ≡ run_end self.now }
    {
        self.addr + self.bytes()
    }
}
