// What a directive is to the nesting of conditionals.
ghost use Rattle.std.specs.Prelude.{◌≡◌, List};
ghost use Rattle.pp_tokens.specs.declared.Token.{Token};
ghost use Rattle.directive_scan.specs.Groups.{directive_role};
ghost use Rattle.directive_scan.specs.Names.{directive_told};
ghost use Rattle.directive_scan.specs.Spots.{role_told};

use crate::conditional::BranchName;
use crate::name::DirectiveName;

/// What a directive is to the nesting of conditionals (ISO C 6.10.1): a line by itself, the opening of a conditional,
/// or a line that goes on or ends one.
#[derive(Debug, Clone, Copy, PartialEq, Eq)]
pub enum Nesting {
    Single,
    Opening,
    Branch(BranchName),
}

// What a directive with a name is.
pub fn nesting_of(name: DirectiveName) -> Nesting
    ensures { (ts : List Token) → role_told result ≡ directive_role (directive_told name ts) }
{
    match name {
        DirectiveName::If => Nesting::Opening,
        DirectiveName::Ifdef => Nesting::Opening,
        DirectiveName::Ifndef => Nesting::Opening,
        DirectiveName::Elif => Nesting::Branch(BranchName::Elif),
        DirectiveName::Else => Nesting::Branch(BranchName::Else),
        DirectiveName::Endif => Nesting::Branch(BranchName::Endif),
        _ => Nesting::Single,
    }
}
