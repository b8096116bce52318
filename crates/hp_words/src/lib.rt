//! The words of the program: which of its forms they are.
#![tactic(auto)]

mod form;
mod number;
mod reading;
mod verbs;

pub use form::Form;
pub use reading::form_of;
