//! What a store lends, and what sessions answer.

mod sessions;
mod stores;
