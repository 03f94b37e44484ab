//! The directives of a file (ISO C 6.10), and how its conditionals nest.
#![tactic(auto)]

mod asked;
mod conditional;
mod directive;
mod header;
mod law;
mod name;
mod operand;
mod outline;
mod pieces;
mod role;
mod scanner;
mod spots;
mod stage;

pub use asked::Asked;
pub use conditional::{BranchName, Malformed};
pub use directive::{Directive, HeaderName, Piece, Target};
pub use header::header_of;
pub use law::{
    directives_stand_alone, nesting_told, one_outline, outline_holds, parts_without_probe,
};
pub use name::DirectiveName;
pub use operand::{ConditionPart, has_operands, has_probe, parts_of};
pub use pieces::{DirectiveRef, PieceRef, Pieces};
pub use role::Nesting;
pub use scanner::scan;
