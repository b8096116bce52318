/// The hugepages of one size on one socket, and the slots of their segment list. `page` is bytes, `pages` and
/// `slots` are counts. After hugepage_info of EAL and its rte_memseg_list.
#[derive(Clone, Copy, PartialEq, Eq)]
pub struct PoolLine {
    pub socket: u32,
    pub page: u64,
    pub pages: u64,
    pub slots: u32,
}
