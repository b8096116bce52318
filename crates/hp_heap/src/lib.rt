//! A heap of one socket or of external memory: its elements, its free lists and its history.
#![tactic(auto)]

mod alloc;
mod body;
mod choice;
mod chunk_calls;
mod chunk_list;
mod chunks;
mod cutting;
mod element_calls;
mod elements;
mod entry;
mod finding;
mod freeing;
mod headers;
mod heap;
mod joining;
mod laws;
mod naming;
mod page_list;
mod pages;
mod pieces;
mod questions;
mod resizing;
mod socket_name;
mod state;
mod stretch;
mod totals;

pub use elements::Elements;
pub use entry::{Entry, HeapAnswer, HeapCall};
pub use freeing::FreeFault;
pub use heap::Heap;
pub use hp_base::{Chunk, Span, SpanState};
pub use laws::{
    alloc_alone_law, alloc_law, answers_law, busy_law, choice_law, cut_law, free_law, fronts_law,
    history_law, insertion_law, joining_law, list_law, pages_law, resize_law, runs_law, sound_law,
    tiling_law,
};
