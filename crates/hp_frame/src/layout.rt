//! The lengths of a frame's parts, in bytes.

/// The header: the kind, and the lengths of the name and of the parameter.
pub const HEADER_LEN: usize = 4;

/// The longest name. After RTE_MP_MAX_NAME_LEN, which counts a zero at the end.
pub const NAME_MAX: u8 = 63;

/// The longest parameter that a header may say. The parameters of the four kinds are shorter. After RTE_MP_MAX_PARAM_LEN.
pub const PARAM_MAX: u16 = 256;

/// Where the length of the parameter stands.
pub const PARAM_LEN_PLACE: usize = 2;
