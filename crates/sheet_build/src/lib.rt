//! The sheet of a file: what it may ask for and define, found from its directives alone, whatever its conditionals say.
#![tactic(auto)]

mod building;
mod computed;
mod definitions;
mod directives;
mod file_body;
mod keys;
mod laws;
mod memo;
mod sheets;
mod targets;
mod unweighed;

pub use building::{FoundSheet, sheet, unweighed_sheet};
pub use computed::Computed;
pub use file_body::FileBody;
pub use keys::SheetKey;
pub use laws::places_locate;
pub use memo::SheetMemo;
pub use sheets::Sheet;
pub use unweighed::Unweighed;
