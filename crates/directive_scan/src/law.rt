// Laws of the definitions.
ghost use Rattle.std.specs.Prelude.{◌≡◌, ◌↔◌, List, None, Some, false, map, codes};
ghost use Rattle.std.specs.List.{list_any};
ghost use Rattle.pp_tokens.specs.declared.Token.{Token};
ghost use Rattle.pp_tokens.specs.DirectiveLines.{directive_line};
ghost use Rattle.pp_tokens.specs.Marks.{is_word};
ghost use Rattle.directive_scan.specs.Directives.{directives_of, pieces};
ghost use Rattle.directive_scan.specs.Groups.{Group, HasOutline, Outline, Role, malformed_by, outline, role_of, whole};
ghost use Rattle.directive_scan.specs.Operands.{parts_of};
ghost use Rattle.directive_scan.specs.declared.directive.Piece.{Piece};
ghost use Rattle.directive_scan.specs.declared.operand.ConditionPart.TheVariants.{Written};

/// Each list of pieces has the outline that the definition computes.
pub fn outline_holds()
    ensures { (role : Piece → Role) (pieces : List Piece) → HasOutline role pieces (outline role pieces) }
{}

/// It has no other.
pub fn one_outline()
    ensures { (role : Piece → Role) (pieces : List Piece) (o : Outline) → HasOutline role pieces o → o ≡ outline role pieces }
{}

/// Nothing is malformed exactly where the whole file is groups.
pub fn nesting_told()
    ensures { (pieces : List Piece) → (malformed_by (outline role_of pieces) ≡ None) ↔ ((g : Group) × HasOutline role_of pieces (whole g)) }
{}

/// A condition's line without `__has_include` has its tokens as parts, as written.
pub fn parts_without_probe()
    ensures { (line : List Token) → list_any (is_word (codes "__has_include")) line ≡ false → parts_of line ≡ Some (map Written line) }
{}

/// A file has the directives that it has where its lines of text are empty.
pub fn directives_stand_alone()
    ensures { (lines : List (List Token)) → directives_of (pieces (map directive_line lines)) ≡ directives_of (pieces lines) }
{}
