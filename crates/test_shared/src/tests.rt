//! What the calls of mailboxes, statistics cells, pools and rings answer, a folder for each crate.
mod mail;
mod mempool;
mod ring;
mod stats;
