ghost use Rattle.std.specs.Prelude.{◌≡◌, ◌≤◌, ◌||◌, ◌-◌, ◌^◌, length, is_some, IfSome};
ghost use Rattle.hp_script.specs.Part.{behind};
ghost use Rattle.hp_script.specs.ShapeWords.Options.{socket_of, socket_choice, with_socket, with_heap, with_align, with_bound, with_flags, number_given, with_option, given_by, nothing_given, settled, options_of};

use crate::numbers::number;
use crate::options::{Options, SocketChoice};
use crate::piece::Piece;
use crate::token::Token;

/// The options of a line that were given so far.
#[derive(Drop)]
pub struct Given<'a> {
    pub socket: Option<SocketChoice>,
    pub heap: Option<Token<'a>>,
    pub align: Option<u64>,
    pub bound: Option<u64>,
    pub flags: Option<u32>,
}

/// The options that some words give. It is `None` where one of them is bad.
#[tactic(auto, unfolding(crate::specs::ShapeWords::Options::options_of))]
pub fn options_of<'a>(words: &[Token<'a>]) -> Option<Options<'a>>
    ensures { result ≡ options_of words.now }
{
    let given = given_by(words)?;
    Some(settled(given))
}

#[tactic(auto, using(crate::proofs::TokenFacts::OptionLemmas::given_by_step, crate::proofs::TokenFacts::OptionLemmas::given_by_refused, crate::proofs::TokenFacts::OptionLemmas::given_by_end))]
fn given_by<'a>(words: &[Token<'a>]) -> Option<Given<'a>>
    ensures { result ≡ given_by nothing_given words.now }
{
    let mut given = Given {
        socket: None,
        heap: None,
        align: None,
        bound: None,
        flags: None,
    };
    for word in words {
        let Some(more) = with_option(given, word) else {
            return None;
        };
        given = more;
    }
    Some(given)
}

fn settled<'a>(given: Given<'a>) -> Options<'a>
    ensures { result ≡ settled given.entry }
{
    let Given {
        socket,
        heap,
        align,
        bound,
        flags,
    } = given;
    Options {
        socket: socket.unwrap_or(SocketChoice::Any),
        heap,
        align: align.unwrap_or(0),
        bound: bound.unwrap_or(0),
        flags: flags.unwrap_or(0),
    }
}

#[tactic(auto, unfolding(crate::specs::ShapeWords::Options::with_option))]
fn with_option<'a>(given: Given<'a>, word: &Token<'a>) -> Option<Given<'a>>
    ensures { result ≡ with_option given.entry word.now }
{
    if word.begins(b"socket=") {
        with_socket(given, word.behind(7))
    } else if word.begins(b"heap=") {
        with_heap(given, word)
    } else if word.begins(b"align=") {
        with_align(given, word.behind(6))
    } else if word.begins(b"bound=") {
        with_bound(given, word.behind(6))
    } else if word.begins(b"flags=") {
        with_flags(given, word.behind(6))
    } else {
        None
    }
}

// Whether a socket or a heap is given.
fn is_placed(given: &Given) -> bool
    ensures { result ≡ (is_some given.now.socket || is_some given.now.heap) }
{
    given.socket.is_some() || given.heap.is_some()
}

fn socket_of(n: Option<u64>) -> Option<SocketChoice>
    ensures { result ≡ socket_of n }
{
    match n {
        None => None,
        Some(n) => {
            if n <= 31 {
                Some(SocketChoice::Number { socket: n as u32 })
            } else {
                None
            }
        }
    }
}

fn socket_choice(value: &Piece) -> Option<SocketChoice>
    ensures { result ≡ socket_choice value.now }
{
    if value.is(b"any") {
        return Some(SocketChoice::Any);
    }
    socket_of(number(value.as_bytes()))
}

#[tactic(auto, unfolding(crate::specs::ShapeWords::Options::with_socket))]
fn with_socket<'a>(mut given: Given<'a>, value: Piece<'a>) -> Option<Given<'a>>
    ensures { result ≡ with_socket given.entry value.entry }
{
    if is_placed(&given) {
        return None;
    }
    given.socket = Some(socket_choice(&value)?);
    Some(given)
}

#[tactic(auto, unfolding(crate::specs::ShapeWords::Options::with_heap))]
fn with_heap<'a>(mut given: Given<'a>, word: &Token<'a>) -> Option<Given<'a>>
    requires { 5 ≤ length word.now.text }
    ensures { result ≡ with_heap given.entry (behind 5 word.now) }
{
    if is_placed(&given) {
        return None;
    }
    given.heap = Some(word.token_behind(5)?);
    Some(given)
}

fn number_given(before: bool, most: u64, value: &Piece) -> Option<u64>
    ensures value { result ≡ number_given before most value.now }
    ensures most { IfSome result (λ n. n ≤ most) }
{
    if before {
        return None;
    }
    let n = number(value.as_bytes())?;
    if n <= most { Some(n) } else { None }
}

#[tactic(auto, unfolding(crate::specs::ShapeWords::Options::with_align))]
fn with_align<'a>(mut given: Given<'a>, value: Piece<'a>) -> Option<Given<'a>>
    ensures { result ≡ with_align given.entry value.entry }
{
    given.align = Some(number_given(given.align.is_some(), u64::MAX, &value)?);
    Some(given)
}

#[tactic(auto, unfolding(crate::specs::ShapeWords::Options::with_bound))]
fn with_bound<'a>(mut given: Given<'a>, value: Piece<'a>) -> Option<Given<'a>>
    ensures { result ≡ with_bound given.entry value.entry }
{
    given.bound = Some(number_given(given.bound.is_some(), u64::MAX, &value)?);
    Some(given)
}

#[tactic(auto, unfolding(crate::specs::ShapeWords::Options::with_flags))]
fn with_flags<'a>(mut given: Given<'a>, value: Piece<'a>) -> Option<Given<'a>>
    ensures { result ≡ with_flags given.entry value.entry }
{
    let flags = number_given(given.flags.is_some(), 0xffff_ffff, &value)?;
    given.flags = Some(flags as u32);
    Some(given)
}
