//! The lines that a participant does.
ghost use Rattle.std.specs.Prelude.{◌≡◌, ◌^◌, ◌<◌, ◌≤◌, Some, None, IfOk, MatchResult, OnErr, true};
ghost use Rattle.hp_base.specs.Requests.{rounded_size};
ghost use Rattle.hp_base.specs.declared.request.BadRequest.TheVariants as bad;
ghost use Rattle.hp_script.specs.declared.line.Act.TheVariants as act;
ghost use Rattle.hp_serve.specs.Clocks.{RisesWithin, longest_allocation, longest_wait};
ghost use Rattle.hp_proc.specs.Contexts.{IsNextLine};
ghost use Rattle.hp_proc.specs.Courses.{Allocates};
ghost use Rattle.hp_proc.specs.Freeing.{resize_refusal};
ghost use Rattle.hp_proc.specs.ParticipantView.{after_registering};
ghost use Rattle.hp_proc.specs.Progress.{IsInside};
ghost use Rattle.hp_proc.specs.Registering.{IsRegistering, registering};
ghost use Rattle.hp_hall.specs.HallState.{IsBusy};
ghost use Rattle.hp_proc.specs.LineInHall.{DoesLineHere, HaltsLineHere, IsMapped, IsReadyAgain, IsReadyIn, MayDoLine};

use super::Participant;
use hp_base::{BadRequest, Mapper, round64};
use hp_hall::Waiting;
use hp_script::{Act, Answer, Line, Token};
use hp_serve::Decide;
use std::alloc::AllocError;

// The greatest size, in bytes, that an element may be asked to have.
const MOST: u64 = 1 << 63;

// A new size in whole cache lines, where it is none that is refused.
fn rounded(size: u64) -> Result<u64, BadRequest>
    ensures { MatchResult result (λ rounded. (rounded ≡ rounded_size size) × (0 < rounded) × (rounded ≤ 2 ^ 63)) (λ kind. resize_refusal size ≡ Some kind) }
{
    if size == 0 {
        return Err(BadRequest::Zero);
    }
    match round64(size) {
        None => Err(BadRequest::Overflow),
        Some(rounded) => most(rounded),
    }
}

// A rounded size, where it is not above the greatest.
fn most(size: u64) -> Result<u64, BadRequest>
    ensures { MatchResult result (λ rounded. (rounded ≡ size) × (size ≤ 2 ^ 63)) (λ kind. (kind ≡ bad.Overflow) × (2 ^ 63 < size)) }
{
    if size > MOST {
        return Err(BadRequest::Overflow);
    }
    Ok(size)
}

impl<'p, M: Mapper, F: Decide + Copy + Drop> Participant<'p, M, F> {
    // A line that frees.
    fn do_free<H: Waiting>(
        &mut self,
        hall: &mut H,
        line: &Line<'_>,
        label: &Token<'_>,
    ) -> Result<Answer, AllocError>
        requires attached { self.old.context.standing.attached ≡ true }
        requires own { line.now.participant ≡ self.old.party.me }
        requires act { line.now.act ≡ act.Free label.now }
        requires ready { IsReadyIn self.old.party.me self.old (H.state hall.old) }
        ensures does { IfOk result (λ given. DoesLineHere self.old.party.me self.old self.new (H.state hall.old)
            (H.state hall.new) line.now given) }
        ensures halts { OnErr result (HaltsLineHere self.old.party.me self.old self.new (H.state hall.old)
            (H.state hall.new) line.now) }
        ensures clock { RisesWithin H.pending (λ hall. IsBusy (H.state hall)) (longest_wait self.old.party.deadline)
            (H.state hall.old).clock (H.state hall.new).clock }
        ensures ready { IsReadyAgain self.old.party.me self.old self.new (H.state hall.new) }
        ensures goes_on { H.goes_on hall.old hall.new }
    {
        self.act_on(hall, line, label, None)
    }

    // A line that resizes.
    fn do_resize<H: Waiting>(
        &mut self,
        hall: &mut H,
        line: &Line<'_>,
        label: &Token<'_>,
        size: u64,
    ) -> Result<Answer, AllocError>
        requires attached { self.old.context.standing.attached ≡ true }
        requires own { line.now.participant ≡ self.old.party.me }
        requires act { line.now.act ≡ act.Resize label.now size }
        requires ready { IsReadyIn self.old.party.me self.old (H.state hall.old) }
        ensures does { IfOk result (λ given. DoesLineHere self.old.party.me self.old self.new (H.state hall.old)
            (H.state hall.new) line.now given) }
        ensures halts { OnErr result (HaltsLineHere self.old.party.me self.old self.new (H.state hall.old)
            (H.state hall.new) line.now) }
        ensures clock { RisesWithin H.pending (λ hall. IsBusy (H.state hall)) (longest_wait self.old.party.deadline)
            (H.state hall.old).clock (H.state hall.new).clock }
        ensures ready { IsReadyAgain self.old.party.me self.old self.new (H.state hall.new) }
        ensures goes_on { H.goes_on hall.old hall.new }
    {
        match rounded(size) {
            Ok(size) => self.act_on(hall, line, label, Some(size)),
            Err(kind) => Ok(Answer::BadRequest { kind }),
        }
    }

    // A line that asks for the statistics of a heap.
    fn do_dump<H: Waiting>(
        &mut self,
        hall: &mut H,
        line: &Line<'_>,
        name: &Token<'_>,
    ) -> Result<Answer, AllocError>
        requires attached { self.old.context.standing.attached ≡ true }
        requires own { line.now.participant ≡ self.old.party.me }
        requires act { line.now.act ≡ act.Dump name.now }
        requires ready { IsReadyIn self.old.party.me self.old (H.state hall.old) }
        ensures does { IfOk result (λ given. DoesLineHere self.old.party.me self.old self.new (H.state hall.old)
            (H.state hall.new) line.now given) }
        ensures halts { OnErr result (HaltsLineHere self.old.party.me self.old self.new (H.state hall.old)
            (H.state hall.new) line.now) }
        ensures clock { RisesWithin H.pending (λ hall. IsBusy (H.state hall)) 0 (H.state hall.old).clock (H.state hall.new).clock }
        ensures ready { IsReadyAgain self.old.party.me self.old self.new (H.state hall.new) }
        ensures goes_on { H.goes_on hall.old hall.new }
    {
        let Some(place) = self.read_place(hall, name)? else {
            return Ok(Answer::NotFound);
        };
        let (mut heap, pen) = self.hold(hall, place.index, 1)?;
        let stats = self.stats_in(&mut heap);
        self.put(hall, heap, pen);
        Ok(Answer::Statistics { stats })
    }

    // A line of a watcher or a validator, which are the participant's own: it does nothing in its hall.
    fn do_registering(&mut self, act: &Act<'_>) -> Result<Answer, AllocError>
        requires registers { IsRegistering act.now }
        ensures given { IfOk result (λ given. given ≡ registering self.old.context.standing.watchers
            self.old.context.standing.validators act.now) }
        ensures left { IfOk result (λ given. self.new ≡ after_registering act.now given self.old) }
        ensures err { OnErr result (self.new ≡ self.old) }
    {
        match act {
            Act::Watch { name } => {
                let alloc = self.context.alloc;
                self.do_watch(alloc, name)
            }
            Act::Unwatch { name } => Ok(self.do_unwatch(name)),
            Act::Limit {
                name,
                socket,
                bytes,
                allow,
            } => self.do_limit(name, *socket, *bytes, *allow),
            Act::Unlimit { name, socket } => Ok(self.do_unlimit(name, *socket)),
            _ => unreachable!(),
        }
    }

    // A line that only an attached participant does.
    fn do_attached<H: Waiting>(
        &mut self,
        hall: &mut H,
        line: &Line<'_>,
    ) -> Result<Answer, AllocError>
        requires attached { self.old.context.standing.attached ≡ true }
        requires own { line.now.participant ≡ self.old.party.me }
        requires next { IsNextLine self.old.context line.now }
        requires inside { IsInside line.now.act }
        requires ready { IsReadyIn self.old.party.me self.old (H.state hall.old) }
        ensures does { IfOk result (λ given. DoesLineHere self.old.party.me self.old self.new (H.state hall.old)
            (H.state hall.new) line.now given) }
        ensures halts { OnErr result (HaltsLineHere self.old.party.me self.old self.new (H.state hall.old)
            (H.state hall.new) line.now) }
        ensures lies { IfOk result (λ given. Allocates line.now.act → IsMapped self.new.party given) }
        ensures clock { RisesWithin H.pending (λ hall. IsBusy (H.state hall)) (longest_allocation self.old.party.deadline)
            (H.state hall.old).clock (H.state hall.new).clock }
        ensures ready { IsReadyAgain self.old.party.me self.old self.new (H.state hall.new) }
        ensures goes_on { H.goes_on hall.old hall.new }
    {
        match &line.act {
            Act::Alloc { size, options, .. } => self.do_alloc(hall, line, *size, options),
            Act::Free { label } => self.do_free(hall, line, label),
            Act::Resize { label, size } => self.do_resize(hall, line, label, *size),
            Act::Zone { name, len, options } => self.do_zone(hall, line, name, *len, options),
            Act::Lookup { name } => self.do_lookup(hall, line, name),
            Act::Unzone { name } => self.do_unzone(hall, line, name),
            Act::Dump { heap } => self.do_dump(hall, line, heap),
            Act::Stats { heap } => self.do_stats(hall, line, heap),
            Act::Watch { .. } | Act::Unwatch { .. } => self.do_registering(&line.act),
            Act::Limit { .. } | Act::Unlimit { .. } => self.do_registering(&line.act),
            Act::Heap { .. } | Act::Unheap { .. } => self.do_external(hall, line),
            Act::Add { .. } | Act::Remove { .. } => self.do_external(hall, line),
            Act::Map { .. } | Act::Unmap { .. } => self.do_external(hall, line),
            _ => unreachable!(),
        }
    }

    // A line that neither comes nor goes nor awaits: who is not attached is answered so.
    fn do_inside<H: Waiting>(&mut self, hall: &mut H, line: &Line<'_>) -> Result<Answer, AllocError>
        requires own { line.now.participant ≡ self.old.party.me }
        requires next { IsNextLine self.old.context line.now }
        requires inside { IsInside line.now.act }
        requires ready { IsReadyIn self.old.party.me self.old (H.state hall.old) }
        ensures does { IfOk result (λ given. DoesLineHere self.old.party.me self.old self.new (H.state hall.old)
            (H.state hall.new) line.now given) }
        ensures halts { OnErr result (HaltsLineHere self.old.party.me self.old self.new (H.state hall.old)
            (H.state hall.new) line.now) }
        ensures lies { IfOk result (λ given. Allocates line.now.act → IsMapped self.new.party given) }
        ensures clock { RisesWithin H.pending (λ hall. IsBusy (H.state hall)) (2 ^ 40) (H.state hall.old).clock (H.state hall.new).clock }
        ensures ready { IsReadyAgain self.old.party.me self.old self.new (H.state hall.new) }
        ensures goes_on { H.goes_on hall.old hall.new }
    {
        if !self.context.attached {
            return Ok(Answer::Detached);
        }
        // How long it waits at most is handed out with its deadline.
        let _deadline = self.server().deadline();
        self.do_attached(hall, line)
    }

    /// Does one of its lines, and gives the answer: an allocation, a free, a resize, a memzone that is reserved, found or freed, statistics
    /// with the heap's lock or without it, an attach or a detach, what makes, fills, attaches and destroys external heaps, what registers or
    /// unregisters a watcher or a validator, and a wait for the first lines of another one. It holds no slot before and after. Where memory
    /// runs out, the numbers of its calls, or a mapper's calls, it does no further line. After rte_malloc_socket, rte_free,
    /// malloc_elem_resize, rte_memzone_reserve_bounded, rte_malloc_get_socket_stats, rte_eal_init and rte_eal_cleanup of a secondary process,
    /// rte_malloc_heap_create and what follows it, rte_mem_event_callback_register and rte_mem_alloc_validator_register.
    pub fn do_line<H: Waiting>(
        &mut self,
        hall: &mut H,
        line: &Line<'_>,
    ) -> Result<Answer, AllocError>
        requires own { line.now.participant ≡ self.old.party.me }
        requires next { IsNextLine self.old.context line.now }
        requires may { MayDoLine self.old.party.me H.scale line.now.act (H.state hall.old) }
        requires ready { IsReadyIn self.old.party.me self.old (H.state hall.old) }

        // What it did, by what was known when it began, and what that leaves.
        ensures does { IfOk result (λ given. DoesLineHere self.old.party.me self.old self.new (H.state hall.old)
            (H.state hall.new) line.now given) }
        ensures halts { OnErr result (HaltsLineHere self.old.party.me self.old self.new (H.state hall.old)
            (H.state hall.new) line.now) }

        // An address that an allocation or a reservation answers lies in a page that the participant has mapped.
        ensures lies { IfOk result (λ given. Allocates line.now.act → IsMapped self.new.party given) }
        ensures clock { RisesWithin H.pending (λ hall. IsBusy (H.state hall)) (2 ^ 40) (H.state hall.old).clock (H.state hall.new).clock }

        // Whatever becomes of the line, it holds no heap and no slot then, and its asks are settled.
        ensures ready { IsReadyAgain self.old.party.me self.old self.new (H.state hall.new) }
        ensures goes_on { H.goes_on hall.old hall.new }
    {
        match &line.act {
            Act::Attach => self.do_attach(hall, line),
            Act::Detach => self.do_detach(hall, line),
            Act::Await { other, lines } => self.do_await(hall, line, *other, *lines),
            _ => self.do_inside(hall, line),
        }
    }
}
