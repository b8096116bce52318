/// A part of the report that shows the heaps one after another. Own.
#[derive(Clone, Copy)]
pub enum HeapPart {
    /// The heaps that have a name, each with its elements by address.
    Elements,
    /// The histories of all heaps.
    Histories,
}
