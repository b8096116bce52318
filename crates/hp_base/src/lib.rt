//! The values that every other crate names: rows, tags, requests and places, and the traits of the outside.
#![tactic(auto)]

mod answers;
mod caught;
mod chunk;
mod class;
mod clock;
mod data_place;
mod event;
mod failing_calls;
mod flags;
mod gate;
mod held_rows;
mod judge;
mod laws;
mod limits;
mod map_answer;
mod mapper;
mod name;
mod named;
mod page_size;
mod plan;
mod plan_entry;
mod pool_line;
mod request;
mod round;
mod row;
mod sink;
mod slot;
mod source;
mod span;
mod stats;
mod status;
mod tag;
mod tell;

pub use answers::Answers;
pub use caught::Caught;
pub use chunk::Chunk;
pub use class::class_of;
pub use clock::{Clock, StepClock};
pub use data_place::place;
pub use event::{Event, EventKind};
pub use flags::{
    HINT, HINT_BIT, PAGE_FLAGS, has_bit, is_fitting_page, is_hint, names_page, names_pages,
};
pub use gate::{Gate, OpenGate};
pub use judge::{Judge, NoLimits};
pub use laws::{class_law, limits_law, memory_law, numbers_law, place_law, plan_law, rounding_law};
pub use limits::{
    MAX_COUNT, MAX_DEADLINE, MAX_HEAPS, MAX_LINES, MAX_LIST_SEGMENTS, MAX_LISTS, MAX_PARTICIPANTS,
    MAX_READING, MAX_SEGMENTS, MAX_SOCKETS, MAX_WORKLOAD_BYTES,
};
pub use map_answer::MapAnswer;
pub use mapper::{Mapper, MemMapper};
pub use name::Name;
pub use page_size::{GREATEST_PAGE, PAGE_SIZES, is_page_size, pages_for};
pub use plan::{Action, MapAction, Plan};
pub use plan_entry::{MsgKind, PlanEntry};
pub use pool_line::PoolLine;
pub use request::{BadRequest, Request};
pub use round::{HEADER, LINE, align_ceil, align_floor, round64};
pub use row::{Row, Run};
pub use sink::{MemSink, Put, Sink};
pub use slot::slot_address;
pub use source::{Got, MemSource, Source};
pub use span::{Span, SpanState};
pub use stats::Stats;
pub use status::Status;
pub use tag::{Caller, Tag};
pub use tell::{Silent, Tell};
