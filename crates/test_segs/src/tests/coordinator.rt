//! Lists of acts with what each is answered, and the outcomes and records at their end.

mod acts;
mod asking;
mod calls;
mod denying;
mod growths;
mod outs;
mod rounds;

const PAGE: u64 = 0x20_0000;
