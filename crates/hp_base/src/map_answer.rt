/// What a mapper answers to the mapping of one page. `addr` and `page` are bytes. Own; it stands for what mmap
/// answers where EAL maps a page.
#[derive(Clone, Copy, PartialEq, Eq)]
pub enum MapAnswer {
    /// The page is mapped, at this place.
    At { addr: u64, page: u64, socket: u32 },
    /// Nothing is mapped.
    Refused,
}
