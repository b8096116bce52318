//! The generator: a workload of so many lines, drawn from a start.

ghost use Rattle.std.specs.Prelude.{◌≡◌, ◌<◌, IfOk};
ghost use Rattle.hp_script.specs.DrawnWords.Draws.{next_state, drawn};
ghost use Rattle.hp_script.specs.DrawnWords.Generator.{drawn_size, is_allocating};
ghost use Rattle.hp_script.specs.DrawnWords.GeneratedText.{generated_text};

use crate::drawn_line::{DrawnAct, DrawnLine, put_line};
use std::alloc::{AllocError, Global};

/// The lines that each text begins with.
const SETUP: &[u8] = b"participants 4\npool 0 2M 1024\npool 1 2M 1024\n";

/// The text of a workload of so many participant lines, drawn from a start. Own.
pub fn generate(alloc: Global, start: u64, lines: u32) -> Result<Vec<u8>, AllocError>
    ensures { IfOk result (λ text. text.items ≡ generated_text start lines) }
{
    let mut generator = Generator {
        state: start,
        live: Vec::new(alloc),
    };
    let mut text = Vec::from_slice(alloc, SETUP)?;
    for before in 0..lines {
        let line = generator.line(before + 1)?;
        put_line(&mut text, line)?;
    }
    Ok(text)
}

// What stands between two lines.
#[derive(Drop)]
struct Generator {
    // Where the draws stand.
    state: u64,
    // The labels that are live, each by the number of the line that makes it.
    live: Vec<u32>,
}

impl Generator {
    ghost use Rattle.std.specs.Prelude.{◌≡◌, ◌<◌, length, IfOk, OnOk};
    ghost use Rattle.hp_script.specs.DrawnWords.Generator.{standing, allocates, frees, resizes, turn_by, drawn_line, behind_line};

    // Draws a line.
    fn line(&mut self, number: u32) -> Result<DrawnLine, AllocError>
        ensures line { IfOk result (λ line. line ≡ drawn_line number (standing self.old.state self.old.live.items)) }
        ensures left { OnOk result (standing self.new.state self.new.live.items
            ≡ behind_line number (standing self.old.state self.old.live.items)) }
    {
        let participant = draw(&mut self.state, 4);
        let verb = draw(&mut self.state, 8);
        let act = self.act(verb, number)?;
        Ok(DrawnLine { participant, act })
    }

    // Draws what a verb asks for.
    fn act(&mut self, verb: u64, number: u32) -> Result<DrawnAct, AllocError>
        ensures act { IfOk result (λ act. act ≡ (turn_by verb number (standing self.old.state self.old.live.items)).act) }
        ensures left { OnOk result (standing self.new.state self.new.live.items
            ≡ (turn_by verb number (standing self.old.state self.old.live.items)).left) }
    {
        if is_allocating(verb, self.live.len()) {
            self.alloc(number)
        } else if verb < 7 {
            Ok(self.free())
        } else {
            Ok(self.resize())
        }
    }

    fn alloc(&mut self, number: u32) -> Result<DrawnAct, AllocError>
        ensures act { IfOk result (λ act. act ≡ (allocates number (standing self.old.state self.old.live.items)).act) }
        ensures left { OnOk result (standing self.new.state self.new.live.items
            ≡ (allocates number (standing self.old.state self.old.live.items)).left) }
    {
        let size = draw_size(&mut self.state);
        let socket = draw(&mut self.state, 2);
        self.live.push(number)?;
        Ok(DrawnAct::Alloc {
            label: number,
            size,
            socket,
        })
    }

    #[tactic(auto, using(std::proofs::lemmas::List::get_or_read))]
    fn free(&mut self) -> DrawnAct
        requires { 0 < length self.old.live.items }
        ensures act { result ≡ (frees (standing self.old.state self.old.live.items)).act }
        ensures left { standing self.new.state self.new.live.items
            ≡ (frees (standing self.old.state self.old.live.items)).left }
    {
        let place = draw_place(&mut self.state, self.live.len());
        let label = self.live.remove(place);
        DrawnAct::Free { label }
    }

    #[tactic(auto, using(std::proofs::lemmas::List::get_or_read))]
    fn resize(&mut self) -> DrawnAct
        requires { 0 < length self.old.live.items }
        ensures act { result ≡ (resizes (standing self.old.state self.old.live.items)).act }
        ensures left { standing self.new.state self.new.live.items
            ≡ (resizes (standing self.old.state self.old.live.items)).left }
    {
        let place = draw_place(&mut self.state, self.live.len());
        let label = self.live[place];
        let size = draw_size(&mut self.state);
        DrawnAct::Resize { label, size }
    }
}

// Whether a verb allocates, with so many labels live.
fn is_allocating(verb: u64, live: usize) -> bool
    ensures { result ≡ is_allocating verb live }
{
    verb < 4 || live == 0
}

// Draws a place among so many live labels.
fn draw_place(state: &mut u64, live: usize) -> usize
    requires { 0 < live }
    ensures value { result ≡ drawn live state.old }
    ensures within { result < live }
    ensures behind { state.new ≡ next_state state.old }
{
    draw(state, live as u64) as usize
}

// Draws a size in bytes.
fn draw_size(state: &mut u64) -> u64
    ensures value { result ≡ drawn_size state.old }
    ensures behind { state.new ≡ next_state state.old }
{
    64 + draw(state, 65_536)
}

// Draws a number below n.
#[tactic(auto, using(crate::proofs::DrawnFacts::DrawLemmas::draws, crate::proofs::DrawnFacts::DrawLemmas::drawn_below))]
fn draw(state: &mut u64, n: u64) -> u64
    requires { 0 < n }
    ensures value { result ≡ drawn n state.old }
    ensures below { result < n }
    ensures behind { state.new ≡ next_state state.old }
{
    *state = next_state(*state);
    (*state >> 33) % n
}

// The state after a draw.
#[tactic(auto, using(crate::proofs::DrawnFacts::DrawLemmas::wrapped))]
fn next_state(state: u64) -> u64
    ensures { result ≡ next_state state }
{
    state
        .wrapping_mul(6_364_136_223_846_793_005)
        .wrapping_add(1_442_695_040_888_963_407)
}
