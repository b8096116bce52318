//! Lists of calls of watchers and validators, with their answers.

mod limiting;
mod watching;

use super::ended;
