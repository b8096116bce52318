ghost use Rattle.std.specs.Prelude.{◌≡◌, ◌≢◌, ◌<◌, ◌≤◌, ◌↔◌, ◌+◌, [], ◌∷◌, ℕ, List, IfOk, IfSome, IfNone, OnOk, OnErr, map, true, false};
ghost use Rattle.std.specs.List.{range_with_len};
ghost use Rattle.hp_base.specs.declared.limits.TheConstants.{MAX_PARTICIPANTS};
ghost use Rattle.hp_base.specs.declared.plan.Action.{Action};
ghost use Rattle.hp_frame.specs.declared.frame.Frame.{Frame};
ghost use Rattle.hp_mail.specs.declared.posted.Posted.{Posted};
ghost use Rattle.crossbeam_queue.specs.Fifo.{Held};
ghost use Rattle.crossbeam_queue.specs.Passes.{view, IsPassOf, IsSamePass, ruled_capacity};
ghost use Rattle.hp_mail.specs.declared.letter.Letter.{Letter};
ghost use Rattle.hp_mail.specs.PassInside.{dealt_pass, with_participants};
ghost use Rattle.hp_mail.specs.PassView.{HasNoStrangers, IsOwner, after_fetch, after_post, new_pass, WasFull, WasEmpty, WasInOrder};
ghost use Rattle.hp_mail.specs.Views.{letter, sender_of, whole_view, first_view, IsLeft, after_put, after_get, Shows, ShowsBoth};

use crate::letter::Letter;
use crate::pass::Pass;
use crate::posted::Posted;
use crate::roles::{Deal, DealOwner, Gets, Lend, Puts, Queue, TakeOver, Token};
use hp_base::{Action, MAX_PARTICIPANTS};
use hp_frame::Frame;
use std::alloc::{AllocError, Global};
use std::marker::Model;
use std::sync::Wait;

/// Frames that wait for the mailbox's owner. All participants share it. After the socket by which rte_mp_sendmsg reaches a process (the
/// chapter Multi-process Support).
#[derive(Drop)]
pub struct Mailbox {
    queue: Queue,
}

impl Model for Mailbox {
    ghost use Rattle.hp_mail.specs.PassView.{MailboxView};

    ghost Value = { MailboxView };

    ghost use Rattle.hp_mail.specs.MailboxInside.{mailbox_view};

    ghost view = { mailbox_view };
}

impl Mailbox {
    /// An empty mailbox with room for that many frames, and a pass for each participant, in the order of their numbers. The owner fetches
    /// by its pass, which knows how many there are. Own.
    pub fn new(
        alloc: Global,
        capacity: usize,
        participants: u8,
        owner: u8,
    ) -> Result<(Mailbox, Vec<Pass>), AllocError>
        requires some { 0 < capacity }
        requires few { capacity ≤ 64 }
        requires participants { participants ≤ MAX_PARTICIPANTS }
        requires owner { owner < participants }
        ensures capacity { IfOk result (λ made. made.0.capacity ≡ capacity) }
        ensures passes { IfOk result (λ made. made.1.items
            ≡ map (new_pass made.0.id participants owner) (range_with_len 0 participants)) }
    {
        let (queue, first) = Queue::ruled(alloc, capacity)?;
        let passes = deal(alloc, &queue, first, participants, owner)?;
        Ok((Mailbox { queue }, passes))
    }

    /// Posts a frame as it is planned. It comes after all that are in the mailbox. After rte_mp_sendmsg.
    pub fn post<R: Wait>(&self, rt: &R, pass: &mut Pass, frame: Frame, action: Action) -> Posted
        requires mailbox { pass.old.mailbox ≡ self.now.id }
        ensures posted { pass.new ≡ after_post frame result pass.old }

        // It is lost exactly where that is planned. It comes twice only where that is planned, and then once only where there was no room
        // for the second.
        ensures lost { (line : ℕ) → (result ≡ Posted.Lost line) ↔ (action ≡ Action.Lose line) }
        ensures twice { result ≡ Posted.Twice → (line : ℕ) × (action ≡ Action.Repeat line) }
        ensures once { (line : ℕ) → action ≡ Action.Repeat line → result ≡ Posted.Sent
            → WasFull self.now (after_post frame result pass.old) }

        // There was no room at a step of this call.
        ensures full { result ≡ Posted.Full → WasFull self.now pass.old }
    {
        match action {
            Action::Lose { line } => Posted::Lost { line },
            Action::Deliver => self.post_once(rt, pass, frame),
            Action::Repeat { .. } => self.post_twice(rt, pass, frame),
        }
    }

    // Posts a frame once.
    fn post_once<R: Wait>(&self, rt: &R, pass: &mut Pass, frame: Frame) -> Posted
        requires mailbox { pass.old.mailbox ≡ self.now.id }
        ensures posted { pass.new ≡ after_post frame result pass.old }
        ensures lost { (line : ℕ) → result ≡ Posted.Lost line → ⊥ }
        ensures twice { result ≡ Posted.Twice → ⊥ }
        ensures full { result ≡ Posted.Full → WasFull self.now pass.old }
    {
        let letter = Letter {
            from: pass.who,
            frame,
        };
        match put(rt, &self.queue, &mut pass.token, letter) {
            Ok(()) => Posted::Sent,
            Err(_) => Posted::Full,
        }
    }

    // Posts a frame twice, or as often as there is room.
    fn post_twice<R: Wait>(&self, rt: &R, pass: &mut Pass, frame: Frame) -> Posted
        requires mailbox { pass.old.mailbox ≡ self.now.id }
        ensures posted { pass.new ≡ after_post frame result pass.old }
        ensures lost { (line : ℕ) → result ≡ Posted.Lost line → ⊥ }
        ensures once { result ≡ Posted.Sent → WasFull self.now (after_post frame result pass.old) }
        ensures full { result ≡ Posted.Full → WasFull self.now pass.old }
    {
        match self.post_once(rt, pass, frame) {
            Posted::Sent => match self.post_once(rt, pass, frame) {
                Posted::Sent => Posted::Twice,
                _ => Posted::Sent,
            },
            other => other,
        }
    }

    /// Fetches the first frame, or none where the mailbox was empty at a step of this call. After the actions of rte_mp_action_register.
    pub fn fetch<R: Wait>(&self, rt: &R, pass: &mut Pass) -> Option<Frame>
        requires mailbox { pass.old.mailbox ≡ self.now.id }
        requires owner { IsOwner pass.old }
        ensures some { IfSome result (λ frame. (from : ℕ) × (pass.new ≡ after_fetch (letter from frame) pass.old)) }
        ensures none { IfNone result ((pass.new ≡ pass.old) × WasEmpty pass.old) }
    {
        let letter = get(rt, &self.queue, &mut pass.token)?;
        Some(letter.frame)
    }

    /// Compares what was fetched of a sender with what it posted, by their passes. Nothing changes. Own.
    pub fn meet(&self, owner: &mut Pass, sender: &mut Pass)
        requires owner { (owner.old.mailbox ≡ self.now.id) × IsOwner owner.old }
        requires sender { sender.old.mailbox ≡ self.now.id }
        requires apart { owner.old.who ≢ sender.old.who }
        ensures in_order { WasInOrder owner.old sender.old }
        ensures owner_same { owner.new ≡ owner.old }
        ensures sender_same { sender.new ≡ sender.old }
    {
        compare(&self.queue, &mut owner.token, &mut sender.token);
    }

    /// Compares what the owner has fetched of itself with what it has posted to itself, by its pass alone. Nothing changes. Own.
    pub fn meet_itself(&self, owner: &mut Pass)
        requires owner { (owner.old.mailbox ≡ self.now.id) × IsOwner owner.old }
        ensures in_order { WasInOrder owner.old owner.old }

        // It has fetched nothing of anybody who has no pass.
        ensures strangers { HasNoStrangers owner.old }
        ensures owner_same { owner.new ≡ owner.old }
    {
        look(&self.queue, &mut owner.token);
    }
}

// A pass for each participant, by its number.
fn deal(
    alloc: Global,
    queue: &Queue,
    first: Token,
    participants: u8,
    owner: u8,
) -> Result<Vec<Pass>, AllocError>
    requires queue { IsPassOf queue.now first }
    requires whole { view first ≡ whole_view }
    requires owner { owner < participants }
    ensures { IfOk result (λ passes. passes.items
        ≡ map (new_pass queue.now.table.shared.table_id participants owner) (range_with_len 0 participants)) }
{
    let mut first = first;
    let mut passes = Vec::with_capacity(alloc, participants as usize)?;
    for who in 0..participants {
        let token = next_token(queue, &mut first, who, who == owner);
        passes.push_reserved(Pass { who, token });
    }
    take_over(queue, &mut passes, owner, first);
    Ok(passes)
}

// When all passes are dealt, the owner's takes over the dealing, and knows from then on how many there are.
fn take_over(queue: &Queue, passes: &mut Vec<Pass>, owner: u8, first: Token)
    requires first { IsPassOf queue.now first × ((view first).deals ≡ true) }
    requires owner { owner < (view first).dealt }
    requires passes { passes.old.items
        ≡ map (dealt_pass queue.now.table.shared.table_id owner) (range_with_len 0 (view first).dealt) }
    ensures { passes.new.items
        ≡ map (new_pass queue.now.table.shared.table_id (view first).dealt owner) (range_with_len 0 (view first).dealt) }
{
    let place = owner as usize;
    deal_on(queue, &mut passes[place], first);
}

// A pass takes over the dealing.
fn deal_on(queue: &Queue, pass: &mut Pass, first: Token)
    requires pass { pass.old.mailbox ≡ queue.now.table.shared.table_id }
    requires first { IsPassOf queue.now first × ((view first).deals ≡ true) }
    ensures { pass.new ≡ with_participants (view first).dealt pass.old }
{
    queue.absorb::<TakeOver>(&mut pass.token, first);
}

// A token of the queue for the next participant, by which the owner fetches.
fn next_token(queue: &Queue, first: &mut Token, who: u8, is_owner: bool) -> Token
    requires queue { IsPassOf queue.now first.old }
    requires left { IsLeft who (view first.old) }
    requires owner { is_owner ≡ true → (view first.old).fetches ≡ true }
    ensures queue { IsSamePass first.old first.new }
    ensures made { IsPassOf queue.now result }
    ensures left { IsLeft (who + 1) (view first.new) }
    ensures fetches { is_owner ≡ false → (view first.new).fetches ≡ (view first.old).fetches }
    ensures token { view result ≡ first_view who is_owner }
{
    if is_owner {
        queue.another::<DealOwner>(first)
    } else {
        queue.another::<Deal>(first)
    }
}

// Puts a letter after all others, where there is room.
fn put<R: Wait>(rt: &R, queue: &Queue, token: &mut Token, letter: Letter) -> Result<(), Letter>
    requires queue { IsPassOf queue.now token.old }
    requires one { (view token.old).senders ≡ sender_of (view token.old) ∷ [] }
    requires from { letter.from ≡ (sender_of (view token.old)).who }
    ensures queue { IsSamePass token.old token.new }
    ensures ok { OnOk result (view token.new ≡ after_put letter.frame (view token.old)) }
    ensures err { OnErr result ((view token.new ≡ view token.old)
        × Held (ruled_capacity queue.now) (Shows (view token.old))) }
{
    queue.push_as::<Puts, R>(rt, token, letter)
}

// Takes the first letter, where there is one.
fn get<R: Wait>(rt: &R, queue: &Queue, token: &mut Token) -> Option<Letter>
    requires queue { IsPassOf queue.now token.old }
    requires fetches { (view token.old).fetches ≡ true }
    ensures queue { IsSamePass token.old token.new }
    ensures some { IfSome result (λ letter. view token.new ≡ after_get letter (view token.old)) }
    ensures none { IfNone result ((view token.new ≡ view token.old) × Held 0 (Shows (view token.old))) }
{
    queue.pop_as::<Gets, R>(rt, token)
}

// Shows what the queue has of a sender, after what was fetched of it.
fn compare(queue: &Queue, owner: &mut Token, sender: &mut Token)
    requires owner { IsPassOf queue.now owner.old × ((view owner.old).senders ≡ sender_of (view owner.old) ∷ []) }
    requires sender { IsPassOf queue.now sender.old × ((view sender.old).senders ≡ sender_of (view sender.old) ∷ []) }
    requires apart { (sender_of (view owner.old)).who ≢ (sender_of (view sender.old)).who }
    ensures owner_same { IsSamePass owner.old owner.new × (view owner.new ≡ view owner.old) }
    ensures sender_same { IsSamePass sender.old sender.new × (view sender.new ≡ view sender.old) }
    ensures shown { ShowsBoth (sender_of (view sender.old)) (view owner.old) }
{
    let lent = queue.another::<Lend>(sender);
    queue.absorb::<Lend>(owner, lent);
    queue.learn_as::<Gets>(owner);
    let back = queue.another::<Lend>(owner);
    queue.absorb::<Lend>(sender, back);
}

// Shows what the queue has of a pass's own senders, after what was fetched of them.
fn look(queue: &Queue, owner: &mut Token)
    requires { IsPassOf queue.now owner.old }
    ensures same { IsSamePass owner.old owner.new × (view owner.new ≡ view owner.old) }
    ensures shown { (letters : List Letter) × Shows (view owner.old) letters }
{
    queue.learn_as::<Gets>(owner);
}
