use hp_base::Span;

/// The header of an element: the element, and the keys of its neighbours in address order, where it has any. After
/// malloc_elem of rte_malloc.
#[derive(Clone, Copy)]
pub struct Node {
    pub span: Span,
    /// The element before this one, by address.
    pub prev: Option<usize>,
    /// The element behind this one, by address.
    pub next: Option<usize>,
}
