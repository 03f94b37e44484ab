//! The search for a source, a forced file or an included file: the places where each form of asking looks, in order.
#![tactic(auto)]

mod asking;
mod asks;
mod laws;
mod searching;
mod setup;

pub use asking::{Ask, Form, Found, Visit};
pub use asks::{forced_ask, form_of, header_ask, source_ask};
pub use laws::{equal_are_same, search_frame, searches_locate};
pub use searching::search;
pub use setup::Setup;
