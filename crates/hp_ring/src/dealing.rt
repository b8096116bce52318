//! Passes of a ring's queue.
ghost use Rattle.std.specs.Prelude.{◌≡◌, ◌+◌, [], ◌∷◌, IfOk, OnOk, map, Contains};
ghost use Rattle.std.specs.List.{range_with_len};
ghost use Rattle.crossbeam_queue.specs.Passes.{IsPassOf, IsSamePass, view};
ghost use Rattle.hp_ring.specs.PassViews.{SendView, new_sender};
ghost use Rattle.hp_ring.specs.Views.{IsLeft, ShowsBoth, first_view, sender, sender_of, whole_view, with_sender};

use crate::roles::{Deals, Lends, Queue, Takes, Token};
use crate::send_pass::SendPass;
use std::alloc::{AllocError, Global};

// A pass for each sender, by number.
pub(crate) fn deal(
    alloc: Global,
    queue: &Queue,
    token: &mut Token,
    senders: u8,
) -> Result<Vec<SendPass>, AllocError>
    requires queue { IsPassOf queue.now token.old }
    requires whole { view token.old ≡ whole_view }
    ensures queue { IsSamePass token.old token.new }
    ensures left { OnOk result (IsLeft senders (view token.new)) }
    ensures passes { IfOk result (λ passes. passes.items
        ≡ map (new_sender queue.now.table.shared.table_id) (range_with_len 0 senders)) }
{
    let mut passes = Vec::with_capacity(alloc, senders as usize)?;
    for who in 0..senders {
        let next = next_token(queue, token, who);
        passes.push_reserved(SendPass { who, token: next });
    }
    Ok(passes)
}

// A token of the queue for the next sender.
fn next_token(queue: &Queue, token: &mut Token, who: u8) -> Token
    requires queue { IsPassOf queue.now token.old }
    requires left { IsLeft who (view token.old) }
    ensures queue { IsSamePass token.old token.new }
    ensures made { IsPassOf queue.now result }
    ensures left { IsLeft (who + 1) (view token.new) }
    ensures token { view result ≡ first_view who }
{
    queue.another::<Deals>(token)
}

// The token of the taker takes in the senders of all passes.
pub(crate) fn gather(queue: &Queue, token: &mut Token, senders: Vec<SendPass>)
    requires queue { IsPassOf queue.now token.old }
    requires senders { (pass : SendView) → Contains senders.items pass → pass.ring ≡ queue.now.table.shared.table_id }
    ensures queue { IsSamePass token.old token.new }
    ensures taken { ((view token.new).takes ≡ (view token.old).takes) × ((view token.new).taken ≡ (view token.old).taken) }
    ensures has { (pass : SendView) → Contains senders.items pass → Contains (view token.new).senders (sender pass.who pass.sent) }
{
    let mut senders = senders;
    while let Some(pass) = senders.pop() {
        gather_one(queue, token, pass);
    }
}

// The token takes in the sender of a pass.
fn gather_one(queue: &Queue, token: &mut Token, pass: SendPass)
    requires queue { IsPassOf queue.now token.old }
    requires pass { pass.ring ≡ queue.now.table.shared.table_id }
    ensures queue { IsSamePass token.old token.new }
    ensures gathered { view token.new ≡ with_sender (sender pass.who pass.sent) (view token.old) }
{
    let SendPass { token: other, .. } = pass;
    queue.absorb::<Lends>(token, other);
}

// Shows what the queue has of a sender, after what was taken of it.
pub(crate) fn compare(queue: &Queue, taker: &mut Token, sender: &mut Token)
    requires taker { IsPassOf queue.now taker.old × ((view taker.old).senders ≡ []) }
    requires sender { IsPassOf queue.now sender.old × ((view sender.old).senders ≡ sender_of (view sender.old) ∷ []) }
    ensures taker_same { IsSamePass taker.old taker.new × (view taker.new ≡ view taker.old) }
    ensures sender_same { IsSamePass sender.old sender.new × (view sender.new ≡ view sender.old) }
    ensures shown { ShowsBoth (sender_of (view sender.old)) (view taker.old) }
{
    let lent = queue.another::<Lends>(sender);
    queue.absorb::<Lends>(taker, lent);
    queue.learn_as::<Takes>(taker);
    let back = queue.another::<Lends>(taker);
    queue.absorb::<Lends>(sender, back);
}
