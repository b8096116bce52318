//! What has been read of a text, line by line.

ghost use Rattle.std.specs.Prelude.{◌≡◌, ◌<◌, ◌≤◌, false, unwrap_or};

mod acts;
mod setups;

use crate::bad_kind::BadKind;
use crate::deadline::Deadline;
use crate::judge::refuse;
use crate::line_fault::LineFault;
use crate::line_list::LineList;
use crate::makers::KnownMakers;
use crate::party_count::PartyCount;
use crate::piece::Piece;
use crate::plan_lines::PlanLines;
use crate::pool_lines::PoolLines;
use crate::shape::{Setup, Shape, shape_of};
use crate::text::is_skipped;
use crate::token::Token;
use crate::words::read_tokens;
use crate::workload::Workload;
use std::alloc::Global;

/// What the lines so far say.
#[derive(Drop)]
pub struct Reader<'a> {
    pub participants: Option<PartyCount>,
    /// Bit p is set where participant p is absent.
    pub absent: u16,
    /// Bit p is set where participant p's socket is given.
    pub placed: u16,
    pub sockets: [u32; 16],
    pub deadline: Option<Deadline>,
    pub pools: PoolLines,
    pub plan: PlanLines,
    pub lines: LineList<'a>,
}

impl<'a> Reader<'a> {
    ghost use Rattle.hp_script.specs.Known.{known};
    ghost use Rattle.hp_script.specs.Setups.{nothing, is_strange, set_up};
    ghost use Rattle.hp_script.specs.Reading.{Steps, read_line, judged, said_step};
    ghost use Rattle.hp_script.specs.Limits.{IsWithinLimits};
    ghost use Rattle.hp_script.specs.Workloads.{IsWorkloadOf};

    /// Nothing is read.
    pub fn new(alloc: Global) -> Reader<'a>
        ensures { result ≡ nothing }
    {
        Reader {
            participants: None,
            absent: 0,
            placed: 0,
            sockets: [0; 16],
            deadline: None,
            pools: PoolLines::new(alloc),
            plan: PlanLines::new(alloc),
            lines: LineList::new(alloc),
        }
    }

    // Whether a participant is not declared so far.
    fn is_strange(&self, party: u64) -> bool
        ensures value { result ≡ is_strange self.now party }
        ensures declared { (result ≡ false) → party < 16 }
    {
        match self.participants {
            None => 1 <= party,
            Some(count) => u64::from(count.number()) <= party,
        }
    }

    /// Reads a line. The buffer is for its tokens; what it holds before does not matter.
    #[tactic(auto, unfolding(crate::specs::Reading::read_line))]
    pub fn read_line(
        &mut self,
        makers: &KnownMakers<'a>,
        number: u32,
        line: &Piece<'a>,
        buffer: &mut Vec<Token<'a>>,
    ) -> Result<(), LineFault>
        ensures { Steps result self.new (read_line (known makers.now) self.old number line.now) }
    {
        if is_skipped(line) {
            return Ok(());
        }
        self.judge(makers, number, line, buffer)
    }

    // Reads a line that is not skipped.
    #[tactic(auto, unfolding(crate::specs::Reading::judged))]
    fn judge(
        &mut self,
        makers: &KnownMakers<'a>,
        number: u32,
        line: &Piece<'a>,
        buffer: &mut Vec<Token<'a>>,
    ) -> Result<(), LineFault>
        ensures { Steps result self.new (judged (known makers.now) self.old number line.now) }
    {
        read_tokens(buffer, line)?;
        let said = shape_of(buffer)?;
        self.take_in(makers, number, said)
    }

    // Takes in what a line says.
    #[tactic(auto, unfolding(crate::specs::Reading::said_step))]
    fn take_in(
        &mut self,
        makers: &KnownMakers<'a>,
        number: u32,
        said: Shape<'a>,
    ) -> Result<(), LineFault>
        ensures { Steps result self.new (said_step (known makers.now) self.old number said.entry) }
    {
        match said {
            Shape::Setup { setup } => self.set_up(number, setup),
            Shape::Does { party, act } => self.add_act(makers, number, party, act),
            Shape::Awaits {
                party,
                other,
                lines,
            } => self.add_await(number, party, other, lines),
        }
    }

    // Takes in a setup line.
    #[tactic(auto, unfolding(crate::specs::Setups::set_up))]
    fn set_up(&mut self, number: u32, setup: Setup) -> Result<(), LineFault>
        ensures { Steps result self.new (set_up self.old number setup) }
    {
        refuse(self.lines.len() > 0, BadKind::Order)?;
        match setup {
            Setup::Participants { count } => self.set_participants(count),
            Setup::Absent { party } => self.set_absent(party),
            Setup::Socket { party, socket } => self.set_socket(party, socket),
            Setup::Deadline { deadline } => self.set_deadline(deadline),
            Setup::Pool { pool } => self.add_pool(pool),
            Setup::Message {
                kind,
                party,
                k,
                twice,
            } => self.add_message(number, kind, party, k, twice),
            Setup::Mapping {
                party,
                call,
                elsewhere,
            } => self.add_mapping(number, party, call, elsewhere),
        }
    }

    /// The workload that was read.
    pub fn finish(self) -> Workload<'a>
        ensures read { IsWorkloadOf self.entry result }
        ensures limits { IsWithinLimits result }
    {
        let Reader {
            participants,
            absent,
            placed: _,
            sockets,
            deadline,
            pools,
            plan,
            lines,
        } = self;
        Workload {
            participants: number_of(participants),
            absent,
            sockets,
            deadline: ms_of(deadline),
            pools: pools.into_pools(),
            plan: plan.into_entries(),
            lines: lines.into_lines(),
        }
    }
}

fn number_of(participants: Option<PartyCount>) -> u8
    ensures value { result ≡ unwrap_or participants 1 }
    ensures some { 1 ≤ result }
    ensures most { result ≤ 16 }
{
    match participants {
        None => 1,
        Some(count) => count.number(),
    }
}

fn ms_of(deadline: Option<Deadline>) -> u64
    ensures value { result ≡ unwrap_or deadline 5000 }
    ensures some { 1 ≤ result }
    ensures most { result ≤ 3600000 }
{
    match deadline {
        None => 5000,
        Some(deadline) => deadline.ms(),
    }
}
