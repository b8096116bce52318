/// How many memory event callbacks a participant may have at once. Own.
pub const MAX_WATCHERS: u32 = 4;
