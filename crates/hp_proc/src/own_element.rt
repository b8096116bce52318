/// Where the element of an allocation lies: the line that made it, by its number in the text, and the index of the heap. Own.
#[derive(Clone, Copy)]
pub struct OwnElement {
    pub line: u32,
    pub heap: u32,
}
