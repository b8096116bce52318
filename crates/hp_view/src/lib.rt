//! A picture of a report: its lines are read, and drawn as one SVG.
#![tactic(auto)]

mod asks;
mod bands;
mod counts;
mod element;
mod form;
mod heads;
mod heaps;
mod input;
mod legend;
mod line;
mod lists;
mod log;
mod mark;
mod number;
mod outcome;
mod page;
mod pages;
mod picture;
mod printing;
mod reading;
mod scale;
mod shape;
mod style;
mod tables;
mod tallies;
mod top_call;
mod word;
mod words;

pub use top_call::{top, view};
