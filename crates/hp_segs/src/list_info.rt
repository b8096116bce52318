/// A segment list of a pool: `slots` slots of `page` bytes each, from the address `base` on. After
/// rte_memseg_list.
#[derive(Clone, Copy, PartialEq, Eq)]
pub struct ListInfo {
    pub socket: u32,
    pub page: u64,
    pub base: u64,
    pub slots: u32,
}
