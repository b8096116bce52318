//! What a participant knows when it does a line.
ghost use Rattle.std.specs.Prelude.{◌≡◌, ◌<◌, ◌≤◌, ◌==◌, [], IfSome, OnErr, OnOk, slice_get};
ghost use Rattle.std.specs.List.{All, find};
ghost use Rattle.std.specs.List.Sorted.{IsNonDecreasingBy, IsPartitionPoint};
ghost use Rattle.std.specs.Option.{option_map};
ghost use Rattle.hp_base.specs.declared.limits.TheConstants.{MAX_HEAPS};
ghost use Rattle.hp_script.specs.Labels.{maker_of};
ghost use Rattle.hp_proc.specs.Contexts.{AreSocketHeaps, IsPlaceOf, opening_context, said_to, with_element};
ghost use Rattle.hp_proc.specs.Courses.{searched_heap_at};
ghost use Rattle.hp_proc.specs.Heaps.{sockets_of};
ghost use Rattle.hp_proc.specs.ParticipantView.{knowing};

use crate::own_chunk::OwnChunk;
use crate::own_element::OwnElement;
use crate::searched_heap::SearchedHeap;
use crate::socket_heap::SocketHeap;
use crate::workload_facts::WorkloadFacts;
use hp_base::PoolLine;
use hp_script::{Line, Token};
use std::alloc::{AllocError, Global};
use std::marker::Model;

/// What a participant knows when it does a line: what the workload says, and what its earlier lines left. One that does no line is told
/// of no workload. Own.
#[derive(Drop)]
pub struct LineContext<'p> {
    pub(crate) alloc: Global,
    pub(crate) workload: Option<&'p WorkloadFacts<'p>>,
    pub(crate) attached: bool,
    // How many records it took in when it attached last.
    pub(crate) records: u64,
    // By the line that made them.
    pub(crate) elements: Vec<OwnElement>,
    // Those that it has attached, by heap and address.
    pub(crate) chunks: Vec<OwnChunk>,
    // How many calls of heaps it has made.
    pub(crate) calls: u64,
}

impl<'p> Model for LineContext<'p> {
    ghost use Rattle.std.specs.Option.{option_map};
    ghost use Rattle.hp_proc.specs.Contexts.{AreOwnElements, Context, context_of, said_to};
    ghost use Rattle.hp_proc.specs.OwnChunks.{AreOwnChunks};

    ghost Value = { Context };

    ghost invariant = { λ a. AreOwnElements a.elements.items × AreOwnChunks a.chunks.items };

    ghost view = { λ a. context_of (said_to (option_map (λ facts. facts.now) a.workload)) a.attached a.records a.elements.items a.chunks.items a.calls };
}

impl<'p> LineContext<'p> {
    /// What a participant knows that has done no line, and is attached or not. Own.
    pub fn new(
        alloc: Global,
        workload: Option<&'p WorkloadFacts<'p>>,
        attached: bool,
    ) -> LineContext<'p>
        ensures { result ≡ opening_context (said_to (option_map (λ facts. facts.now) workload.entry)) attached }
    {
        LineContext {
            alloc,
            workload,
            attached,
            records: 0,
            elements: Vec::new(alloc),
            chunks: Vec::new(alloc),
            calls: 0,
        }
    }

    // It has no watchers and no validators: who does lines has them beside it.
    pub(crate) fn sound(&self)
        ensures { knowing [] [] self.now ≡ self.now }
    {
        let _ = &self.elements;
    }

    // The pool lines.
    pub(crate) fn pools(&self) -> &'p [PoolLine]
        ensures { result.now ≡ self.now.pools }
    {
        match self.workload {
            None => &[],
            Some(workload) => workload.pools(),
        }
    }

    // The heaps of the sockets, by index.
    pub(crate) fn heaps(&self) -> &'p [SocketHeap]
        ensures { AreSocketHeaps self.now.pools result.now }
    {
        match self.workload {
            None => &[],
            Some(workload) => workload.heaps(),
        }
    }

    // The line that makes what a label names.
    pub(crate) fn maker_of(&self, label: &Token<'_>) -> Option<&'p Line<'p>>
        ensures { option_map (λ line. line.now) result ≡ maker_of self.now.lines label.now.text }
    {
        match self.workload {
            None => None,
            Some(workload) => workload.maker_of(label),
        }
    }

    // Makes room for the element of a line.
    pub(crate) fn reserve_element(&mut self) -> Result<(), AllocError>
        ensures { self.new ≡ self.old }
    {
        self.elements.reserve(1)
    }

    // Notes in which heap the element of a line lies. All noted before are of earlier lines.
    pub(crate) fn note_element(&mut self, line: u32, heap: u32) -> Result<(), AllocError>
        requires next { All (λ element. element.line < line) self.old.standing.elements }
        requires few { heap < MAX_HEAPS }
        ensures ok { OnOk result (self.new ≡ with_element (record { line = line; heap = heap }) self.old) }
        ensures err { OnErr result (self.new ≡ self.old) }
    {
        self.elements.push(OwnElement { line, heap })?;
        Ok(())
    }

    // Its own element of a line.
    fn element_of(&self, line: u32) -> Option<&OwnElement>
        ensures is { option_map (λ element. element.now) result ≡ find (λ element. element.line == line) self.now.standing.elements }
        ensures few { IfSome result (λ element. element.now.heap < MAX_HEAPS) }
    {
        element_in(self.elements.as_slice(), line)
    }

    // The socket of the heap with that index.
    fn socket_of(&self, heap: u32) -> Option<u32>
        ensures { result ≡ slice_get (sockets_of self.now.pools) heap }
    {
        let heap = self.heaps().get(heap as usize)?;
        Some(heap.socket)
    }

    // The heap of that index as a place.
    pub(crate) fn place_at(&self, heap: u32) -> SearchedHeap
        requires few { heap < MAX_HEAPS }
        ensures place { result ≡ searched_heap_at self.now.pools heap }
        ensures of_pools { IsPlaceOf self.now.pools result }
    {
        SearchedHeap {
            index: heap,
            serves: self.socket_of(heap),
        }
    }

    // Where its own element of a line lies.
    pub(crate) fn place_of(&self, line: u32) -> Option<SearchedHeap>
        ensures place { result ≡ option_map (λ element. searched_heap_at self.now.pools element.heap)
            (find (λ element. element.line == line) self.now.standing.elements) }
        ensures of_pools { IfSome result (λ place. IsPlaceOf self.now.pools place) }
    {
        let element = self.element_of(line)?;
        Some(self.place_at(element.heap))
    }
}

// The element of a line, among elements of rising lines.
fn element_in(elements: &[OwnElement], line: u32) -> Option<&OwnElement>
    requires { IsNonDecreasingBy (λ element. element.line) elements.now }
    ensures { option_map (λ element. element.now) result ≡ find (λ element. element.line == line) elements.now }
{
    let place = first_from(elements, line);
    let element = elements.get(place)?;
    if element.line == line {
        Some(element)
    } else {
        None
    }
}

// The place of the first element whose line is not below that one.
fn first_from(elements: &[OwnElement], line: u32) -> usize
    requires { IsNonDecreasingBy (λ element. element.line) elements.now }
    ensures { IsPartitionPoint (λ element. element.line < line) (λ element. line ≤ element.line) elements.now result }
{
    elements.partition_point(|element| element.line < line)
}
