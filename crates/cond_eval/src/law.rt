// Laws of the definitions.
ghost use Rattle.std.specs.Prelude.{List};
ghost use Rattle.cond_eval.specs.declared.lexeme.Lexeme.{Lexeme};
ghost use Rattle.cond_eval.specs.Grammar.{IsRead, SpellsOne};

/// The expression that is evaluated is the one that the tokens spell by the grammar of ISO C 6.5 and 6.6; they spell at most one,
/// and none is evaluated where they spell none.
pub fn one_reading()
    ensures read { (lexemes : List Lexeme) → IsRead lexemes }
    ensures one { (lexemes : List Lexeme) → SpellsOne lexemes }
{}
