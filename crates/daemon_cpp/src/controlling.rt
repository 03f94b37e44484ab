// The controlling expression of a condition's line, read token by token as the line is expanded (ISO C 6.10.1).
ghost use Rattle.std.specs.Prelude.{◌≡◌, ◌≤◌, ◌<◌, ◌+◌, ℕ, [], Ok, None, Some, false, map, IfOk, IfErr, IfSome, OnOk, IsTrue, IsNone};
ghost use Rattle.pp_tokens.specs.Tokens.{token_seen};
ghost use Rattle.macro_defs.specs.Table.{lookup};
ghost use Rattle.macro_expand.specs.declared.stream.Standing.TheVariants.{Going};
ghost use Rattle.macro_expand.specs.Seen.{ReportsResult};
ghost use Rattle.macro_expand.specs.Stream.{to_come, at_hand, DefinedReady};
ghost use Rattle.cond_eval.specs.declared.lexeme.Lexeme.{Lexeme};
ghost use Rattle.cond_eval.specs.Value.{RefusesCondition, value_read};
ghost use Rattle.daemon_cpp.specs.Prep.{is_defined};
ghost use Rattle.daemon_cpp.specs.parts.Controlling.{at_first, outside, is_outside, stage_told, with_token, with_outside, with_named, with_inside, with_closing, with_lexeme, read_from, ReadsNext, answer};

use cond_eval::{CondError, Lexeme, Num, lexeme_of, value_of_lexemes};
use macro_defs::MacroTable;
use macro_expand::{ExpandError, Expander, Work};
use pp_tokens::TokenRef;
use std::alloc::{AllocError, Global};
use std::marker::Model;

// How far the operand of a `defined` was read: no `defined` stands open; behind one; behind its `(`; behind its name there, which
// is defined or not. Malformed is a line where a `defined` has no operand.
#[derive(Clone, Copy, Drop)]
enum Stage {
    Outside,
    NamedNext,
    InParentheses,
    ClosingNext(bool),
    Malformed,
}

/// What is known of an expanded line so far: its lexemes, where each `defined` was answered and other identifiers are 0, up to the
/// first constant that is none; and whether a `__has_include` is among them.
#[derive(Drop)]
pub struct Controlling {
    stage: Stage,
    has_probe: bool,
    lexemes: Vec<Lexeme>,
    wrong: Option<CondError>,
}

impl Model for Controlling {
    ghost use Rattle.daemon_cpp.specs.parts.Controlling.{LineSoFar, stage_told, lexemes_told};

    ghost Value = { LineSoFar };

    ghost view = { λ c. record {
      stage = stage_told c.stage;
      probe = c.has_probe;
      lexemes = lexemes_told c.wrong c.lexemes.items;
    } };
}

// Room for the lexemes of most lines.
const FEW: usize = 32;

/// Reads a line as it is expanded.
pub fn read_expanded(
    alloc: Global,
    mut stream: Expander<'_>,
    macros: &MacroTable,
    work: &mut Work,
) -> Result<Controlling, ExpandError>
    requires { stream.standing ≡ Going }
    ensures ok { IfOk result (λ line. read_from (is_defined (lookup macros.now)) at_first (to_come stream.entry work.old.left) ≡ Ok (line, work.new.left)) }
    ensures err { IfErr result (λ e. ReportsResult e (to_come stream.entry work.old.left)) }
    ensures spends { work.new.left ≤ work.old.left }
{
    let mut line = match Controlling::new(alloc) {
        Ok(line) => line,
        Err(_) => return Err(ExpandError::Memory),
    };
    while read_next(&mut stream, macros, work, &mut line)? {}
    Ok(line)
}

// Reads the tokens that are lent next, as most of a line are.
#[inline(always)]
fn read_lent(
    stream: &mut Expander<'_>,
    macros: &MacroTable,
    line: &mut Controlling,
) -> Result<(), AllocError>
    requires { stream.old.standing ≡ Going }
    ensures kept { OnOk result ((units : ℕ) → read_from (is_defined (lookup macros.now)) line.old (to_come stream.old units)
        ≡ read_from (is_defined (lookup macros.now)) line.new (to_come stream.new units)) }
    ensures going { OnOk result (stream.new.standing ≡ Going) }
    ensures few { OnOk result (at_hand stream.new ≤ at_hand stream.old) }
{
    while let Some(token) = stream.lend() {
        line.put(macros, &token)?;
    }
    Ok(())
}

// Reads the tokens that are lent next, and one that isn't; whether there was one.
#[inline(always)]
fn read_next(
    stream: &mut Expander<'_>,
    macros: &MacroTable,
    work: &mut Work,
    line: &mut Controlling,
) -> Result<bool, ExpandError>
    requires { stream.old.standing ≡ Going }
    ensures ok { IfOk result (λ more. ReadsNext (is_defined (lookup macros.now)) more (read_from (is_defined (lookup macros.now)) line.old (to_come stream.old work.old.left)) line.new stream.new work.new.left) }
    ensures few { IfOk result (λ more. IsTrue more → at_hand stream.new + work.new.left < at_hand stream.old + work.old.left) }
    ensures err { IfErr result (λ e. ReportsResult e (to_come stream.old work.old.left)) }
    ensures spends { work.new.left ≤ work.old.left }
{
    match read_lent(stream, macros, line) {
        Ok(()) => read_unlent(stream, macros, work, line),
        Err(_) => Err(ExpandError::Memory),
    }
}

// Reads the next token of an expansion that lends none alone: most often it is a `defined`, which is lent with its operand.
fn read_unlent(
    stream: &mut Expander<'_>,
    macros: &MacroTable,
    work: &mut Work,
    line: &mut Controlling,
) -> Result<bool, ExpandError>
    requires { stream.old.standing ≡ Going }
    ensures ok { IfOk result (λ more. ReadsNext (is_defined (lookup macros.now)) more (read_from (is_defined (lookup macros.now)) line.old (to_come stream.old work.old.left)) line.new stream.new work.new.left) }
    ensures few { IfOk result (λ more. IsTrue more → at_hand stream.new + work.new.left < at_hand stream.old + work.old.left) }
    ensures err { IfErr result (λ e. ReportsResult e (to_come stream.old work.old.left)) }
    ensures spends { work.new.left ≤ work.old.left }
{
    match next_defined(stream, line) {
        Some(name) => match line.answer(macros.is_defined(name.text)) {
            Ok(()) => Ok(true),
            Err(_) => Err(ExpandError::Memory),
        },
        None => read_replaced(stream, macros, work, line),
    }
}

// The name of a `defined` that comes next with its operand, where the operand of none is being read.
fn next_defined<'a>(stream: &mut Expander<'a>, line: &Controlling) -> Option<TokenRef<'a>>
    ensures lends { IfSome result (λ name. DefinedReady (token_seen name) stream.old stream.new × (line.now.stage ≡ outside)) }
    ensures none { IsNone result → stream.new ≡ stream.old }
    ensures same { stream.new.standing ≡ stream.old.standing }
{
    if !line.is_whole() {
        return None;
    }
    stream.lend_defined()
}

// Reads the next token of an expansion that lends none.
fn read_replaced(
    stream: &mut Expander<'_>,
    macros: &MacroTable,
    work: &mut Work,
    line: &mut Controlling,
) -> Result<bool, ExpandError>
    requires { stream.old.standing ≡ Going }
    ensures ok { IfOk result (λ more. ReadsNext (is_defined (lookup macros.now)) more (read_from (is_defined (lookup macros.now)) line.old (to_come stream.old work.old.left)) line.new stream.new work.new.left) }
    ensures few { IfOk result (λ more. IsTrue more → at_hand stream.new + work.new.left < at_hand stream.old + work.old.left) }
    ensures err { IfErr result (λ e. ReportsResult e (to_come stream.old work.old.left)) }
    ensures spends { work.new.left ≤ work.old.left }
{
    match stream.expand_next(work) {
        Ok(Some(token)) => match line.put(macros, &token.as_ref()) {
            Ok(()) => Ok(true),
            Err(_) => Err(ExpandError::Memory),
        },
        Ok(None) => Ok(false),
        Err(error) => Err(error),
    }
}

impl Controlling {
    // A line before its first token.
    fn new(alloc: Global) -> Result<Controlling, AllocError>
        ensures { IfOk result (λ line. line ≡ at_first) }
    {
        Ok(Controlling {
            stage: Stage::Outside,
            has_probe: false,
            lexemes: Vec::with_capacity(alloc, FEW)?,
            wrong: None,
        })
    }

    // Reads one more token.
    #[tactic(auto, unfolding(crate::specs::parts::Controlling::with_token))]
    fn put(&mut self, macros: &MacroTable, token: &TokenRef<'_>) -> Result<(), AllocError>
        ensures { OnOk result (self.new ≡ with_token (is_defined (lookup macros.now)) (token_seen token.now) self.old) }
    {
        match self.stage {
            Stage::Outside => self.put_outside(token),
            Stage::NamedNext => self.put_named(macros, token),
            Stage::InParentheses => {
                self.stage = inside_parentheses(macros, token);
                Ok(())
            }
            Stage::ClosingNext(is_defined) => self.put_closing(token, is_defined),
            Stage::Malformed => Ok(()),
        }
    }

    // Where no `defined` stands open.
    fn put_outside(&mut self, token: &TokenRef<'_>) -> Result<(), AllocError>
        ensures { OnOk result (self.new ≡ with_outside (token_seen token.now) self.old) }
    {
        if !token.is_identifier() {
            return self.push(lexeme_of(token));
        }
        if token.text == b"defined".as_slice() {
            self.stage = Stage::NamedNext;
            return Ok(());
        }
        if token.text == b"__has_include".as_slice() {
            self.has_probe = true;
        }
        self.answer(false)
    }

    // Behind a `defined` stands its name, or a `(`.
    fn put_named(&mut self, macros: &MacroTable, token: &TokenRef<'_>) -> Result<(), AllocError>
        ensures { OnOk result (self.new ≡ with_named (is_defined (lookup macros.now)) (token_seen token.now) self.old) }
    {
        if token.is_identifier() {
            self.stage = Stage::Outside;
            return self.answer(macros.is_defined(token.text));
        }
        self.stage = if token.is_mark(b"(") {
            Stage::InParentheses
        } else {
            Stage::Malformed
        };
        Ok(())
    }

    // Behind a `defined (` and its name stands a `)`.
    fn put_closing(&mut self, token: &TokenRef<'_>, is_defined: bool) -> Result<(), AllocError>
        ensures { OnOk result (self.new ≡ with_closing is_defined (token_seen token.now) self.old) }
    {
        if token.is_mark(b")") {
            self.stage = Stage::Outside;
            return self.answer(is_defined);
        }
        self.stage = Stage::Malformed;
        Ok(())
    }

    // A 1 or a 0.
    fn answer(&mut self, yes: bool) -> Result<(), AllocError>
        ensures { OnOk result (self.new ≡ with_lexeme (Ok (answer yes)) self.old) }
    {
        let bits = if yes { 1 } else { 0 };
        self.push(Ok(Lexeme::Constant(Num {
            bits,
            unsigned: false,
        })))
    }

    // One more lexeme, or a constant that is none; those behind the first such one don't matter.
    fn push(&mut self, read: Result<Lexeme, CondError>) -> Result<(), AllocError>
        ensures { OnOk result (self.new ≡ with_lexeme read self.old) }
    {
        if self.wrong.is_some() {
            return Ok(());
        }
        match read {
            Ok(lexeme) => {
                self.lexemes.push(lexeme)?;
            }
            Err(error) => self.wrong = Some(error),
        }
        Ok(())
    }

    /// Whether the line may end here: each `defined` has its operand.
    pub fn is_whole(&self) -> bool
        ensures { result ≡ is_outside self.now.stage }
    {
        matches!(self.stage, Stage::Outside)
    }

    /// Whether a `__has_include` is left.
    pub fn has_probe(&self) -> bool
        ensures { result ≡ self.now.probe }
    {
        self.has_probe
    }

    /// The value of the expression.
    pub fn value(&self, alloc: Global) -> Result<Num, CondError>
        ensures ok { IfOk result (λ n. value_read self.now.lexemes ≡ Ok n) }
        ensures err { IfErr result (λ e. RefusesCondition e (value_read self.now.lexemes)) }
    {
        match self.wrong {
            Some(error) => Err(error),
            None => value_of_lexemes(alloc, &self.lexemes),
        }
    }
}

// Behind a `defined (` stands its name.
fn inside_parentheses(macros: &MacroTable, token: &TokenRef<'_>) -> Stage
    ensures { stage_told result ≡ with_inside (is_defined (lookup macros.now)) (token_seen token.now) }
{
    if token.is_identifier() {
        Stage::ClosingNext(macros.is_defined(token.text))
    } else {
        Stage::Malformed
    }
}
