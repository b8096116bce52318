/// A heap in which an element is looked for: its index, and the socket whose pages it takes, where it does. Own.
#[derive(Clone, Copy)]
pub struct SearchedHeap {
    pub index: u32,
    pub serves: Option<u32>,
}
