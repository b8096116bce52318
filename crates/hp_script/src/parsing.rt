ghost use Rattle.std.specs.Prelude.{◌≡◌, ◌≤◌, length, All, IfOk, IfErr};
ghost use Rattle.hp_script.specs.Known.{known};
ghost use Rattle.hp_base.specs.PoolLines.{ArePoolLines};
ghost use Rattle.hp_base.specs.Plans.{ArePlanEntries};
ghost use Rattle.hp_base.specs.Participants.{AreSockets, IsAbsent};
ghost use Rattle.hp_script.specs.Facts.{IsLineOf, AwaitEarlier};
ghost use Rattle.hp_script.specs.Labels.{AreMade};
ghost use Rattle.hp_script.specs.Limits.{IsWithinLimits, AreDeclared, AreParticipantLines};
ghost use Rattle.hp_script.specs.Setups.{nothing};
ghost use Rattle.hp_script.specs.Spans.{AreSlices, IsLentFrom, all_tokens};
ghost use Rattle.hp_script.specs.Workloads.{IsReadAs, IsRefusalOf, NamesFirstBad, Reads, read_from, reading_at, reading_of};

use crate::line_fault::LineFault;
use crate::lines_left::LinesLeft;
use crate::makers::KnownMakers;
use crate::parse_fault::ParseFault;
use crate::reader::Reader;
use crate::workload::Workload;
use std::alloc::Global;

// The bytes of a text for which there is a bucket of names, which is about one for each line.
const BYTES: usize = 32;

/// The workload that a text of at most 1,048,576 bytes describes, or the first bad line with its first kind of
/// refusal. The tokens of the workload lend slices of the text. Own.
#[tactic(auto, using(crate::proofs::SpanLemmas::reading_slices, crate::proofs::FirstBad::names_first_bad, crate::proofs::MovedFacts::MovedLemmas::refused_anywhere, crate::proofs::DeclaredLemmas::reading_declared))]
pub fn parse<'a>(alloc: Global, bytes: &'a [u8]) -> Result<Workload<'a>, ParseFault>
    requires { length bytes.now ≤ 1048576 }
    // An accepted text is read whole, and its tokens are slices of it that rise.
    ensures read { IfOk result (IsReadAs bytes.entry.now) }
    ensures spans { IfOk result (λ workload. AreSlices bytes.entry 0 (length bytes.entry.now) (all_tokens workload.lines.items)) }

    // The tokens stand in the text itself.
    ensures lent { IfOk result (λ workload. All (IsLentFrom bytes.entry) (all_tokens workload.lines.items)) }

    // There is room in a run for what it says, each line is of a declared participant, and no two pools and no two labels are alike.
    ensures limits { IfOk result IsWithinLimits }
    ensures declared { IfOk result (λ workload. AreDeclared workload.participants workload.lines.items) }
    ensures pools { IfOk result (λ workload. ArePoolLines workload.pools.items) }
    ensures lines { IfOk result (λ workload. AreParticipantLines workload.lines.items) }

    // The numbers of a line are within their ranges, by its verb. Who awaits lines stands after them.
    ensures acts { IfOk result (λ workload. All IsLineOf workload.lines.items) }
    ensures awaits { IfOk result (λ workload. AwaitEarlier workload.participants workload.lines.items) }

    // What a line frees or resizes, a line makes.
    ensures labels { IfOk result (λ workload. AreMade workload.lines.items) }

    // The plan names declared participants, and each message and mapping call once; sockets are below 32.
    ensures plan { IfOk result (λ workload. ArePlanEntries workload.participants workload.plan.items) }
    ensures sockets { IfOk result (λ workload. AreSockets workload.sockets) }
    ensures absent { IfOk result (λ workload. IsAbsent workload.participants workload.absent) }

    // A fault is the first refusal of the text: that of its first bad line, after lines that are all accepted.
    ensures refused { IfErr result (IsRefusalOf (reading_of bytes.entry.now)) }
    ensures first_bad { IfErr result (NamesFirstBad bytes.entry) }
{
    match read_text(alloc, bytes) {
        Ok(reader) => Ok(reader.finish()),
        Err(fault) => Err(fault),
    }
}

// Reads the lines of a text.
#[tactic(auto, unfolding(crate::specs::Workloads::reading_at))]
fn read_text<'a>(alloc: Global, bytes: &'a [u8]) -> Result<Reader<'a>, ParseFault>
    requires { length bytes.now ≤ 1048576 }
    ensures { Reads result (reading_at bytes.entry) }
{
    let makers = KnownMakers::of(alloc, bytes.len() / BYTES, LinesLeft::of(bytes))?;
    read_all(alloc, &makers, LinesLeft::of(bytes))
}

// Reads the lines of a text, numbered from 1.
fn read_all<'a>(
    alloc: Global,
    makers: &KnownMakers<'a>,
    mut lines: LinesLeft<'a>,
) -> Result<Reader<'a>, ParseFault>
    requires { length lines ≤ 1048577 }
    ensures { Reads result (read_from (known makers.now) nothing 1 lines.entry) }
{
    let mut reader = Reader::new(alloc);
    let mut buffer = Vec::new(alloc);
    let mut number = 1;
    while let Some(line) = lines.take() {
        match reader.read_line(makers, number, &line, &mut buffer) {
            Ok(()) => number += 1,
            Err(LineFault::Bad { kind }) => return Err(ParseFault::Bad { line: number, kind }),
            Err(LineFault::OutOfMemory) => return Err(ParseFault::OutOfMemory),
        }
    }
    Ok(reader)
}
