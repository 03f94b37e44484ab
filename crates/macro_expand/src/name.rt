// What a name stands for, by the definition that it has (ISO C 6.10.3).
ghost use Rattle.std.specs.Prelude.{◌≡◌, ℕ, ◌≤◌, map, length, Some, IfOk, IfErr};
ghost use Rattle.macro_defs.specs.declared.definition.Shape.TheVariants.{Object};
ghost use Rattle.macro_defs.specs.Arguments.{parameters_in};
ghost use Rattle.macro_expand.specs.Replacement.{body_parts};
ghost use Rattle.macro_expand.specs.Expansion.{variable_of, object_replacement};
ghost use Rattle.macro_expand.specs.Seen.{marked_of, lists_of, KeepsWritten, SameWhereAlone, Reports};
ghost use Rattle.macro_expand.specs.parts.Parts.{parts_told};
ghost use Rattle.macro_expand.specs.parts.Naming.{StandAlone, ReadsName, ReadsObject, KnowsAlone, NameStops};
ghost use Rattle.macro_expand.specs.parts.Stamps.{Stamps, AllStamped, EachStamped, NameStamped};

use crate::answers::Answers;
use crate::call::{ReadCall, read_call, with_kept};
use crate::hide_set::HideSet;
use crate::marked::Marked;
use crate::outcome::RunError;
use crate::pending::Pending;
use crate::replace::{Parts, hidden_by_name, joined_tokens, variable_number, with_pasting};
use base_types::Bytes;
use macro_defs::{Definition, Run};
use std::alloc::{AllocError, Global};

// A call of a function-like macro, but for its arguments to be expanded: the parts of the replacement list, which arguments
// stand alone in it, the number of the variable one, and what was written.
#[derive(Drop)]
pub(crate) struct MacroCall<'d> {
    pub(crate) parts: Parts<'d>,
    pub(crate) alone: Vec<bool>,
    pub(crate) variable: Option<usize>,
    pub(crate) read: ReadCall<'d>,
}

// What a name stands for.
#[derive(Drop)]
pub(crate) enum ReadName<'d> {
    // itself: it has no definition, or it is a function-like macro's and no `(` follows
    Itself,
    // the tokens of an object-like macro's replacement, which has a `##` or is empty
    Object(Vec<Marked<'d>>),
    // the tokens of another one's replacement list, as they are lent there, and the names that they hide
    Lent(HideSet, Run<'d>),
    // a call, with its arguments to be expanded
    Call(Vec<Vec<Marked<'d>>>, MacroCall<'d>),
}

// The call that was read of a macro with this definition and these parameters, and its arguments to be expanded.
fn macro_call<'d>(
    alloc: Global,
    d: &'d Definition,
    params: &[Bytes],
    variadic: bool,
    read: ReadCall<'d>,
) -> Result<(Vec<Vec<Marked<'d>>>, MacroCall<'d>), AllocError>
    requires { d.now.shape ≡ Object → ⊥ }
    ensures given { IfOk result (λ r. SameWhereAlone r.1.alone.items (lists_of read.entry.written.items) (lists_of r.0.items)) }
    ensures stamped { (sets : Stamps) (next : ℕ) → EachStamped sets next read.entry.written.items → IfOk result (λ r. EachStamped sets next r.0.items) }
    ensures parts { IfOk result (λ r. parts_told r.1.parts ≡ body_parts (parameters_in d.now.shape) d.now.body) }
    ensures alone { IfOk result (λ r. StandAlone r.1.alone.items (length read.entry.written.items) (parts_told r.1.parts)) }
    ensures variable { IfOk result (λ r. r.1.variable ≡ variable_of params.now variadic) }
    ensures close { IfOk result (λ r. r.1.read.close ≡ read.entry.close) }
    ensures kept { IfOk result (λ r. KeepsWritten (parts_told r.1.parts) (lists_of read.entry.written.items) (lists_of r.1.read.written.items)) }
{
    let parts = Parts::of(alloc, d)?;
    let alone = parts.standing_alone(alloc, read.written.len())?;
    let (given, read) = with_kept(alloc, &parts, alone.as_slice(), read)?;
    let variable = variable_number(params, variadic);
    Ok((
        given,
        MacroCall {
            parts,
            alone,
            variable,
            read,
        },
    ))
}

// What the name of an object-like macro stands for. Tokens that `##` makes get this stamp.
fn read_object<'d>(
    alloc: Global,
    t: &Marked,
    d: &'d Definition,
    stamp: u32,
) -> Result<ReadName<'d>, RunError>
    ensures ok { IfOk result (λ name. ReadsObject t.now d.now.body name) }
    ensures alone { IfOk result (λ name. KnowsAlone name) }
    ensures stamped { (sets : Stamps) (next : ℕ) → IfOk result (λ name. NameStamped sets next stamp name) }
    ensures err { IfErr result (λ e. Reports e (object_replacement (marked_of t.now) d.now.body)) }
{
    let body = d.body();
    // An empty list has no token to hide the name from.
    if body.len() == 0 {
        return Ok(ReadName::Object(Vec::new(alloc)));
    }
    let hidden = hidden_by_name(alloc, t)?;
    let Some(pasted) = with_pasting(d) else {
        return Ok(ReadName::Lent(hidden, body));
    };
    let made = joined_tokens(alloc, t, &hidden, stamp, pasted)?;
    Ok(ReadName::Object(made))
}

// What a name that isn't hidden from itself stands for. A call's tokens are taken from those that are pending.
pub(crate) fn read_name<'s, S, A: Answers<S>>(
    alloc: Global,
    source: &'s S,
    answers: &mut A,
    t: &Marked,
    stamp: u32,
    pending: &mut Pending<'s>,
) -> Result<ReadName<'s>, RunError>
    ensures ok { IfOk result (λ name. ReadsName (A.answerer source.now) answers.old t.now pending.old name answers.new pending.new) }
    ensures alone { IfOk result (λ name. KnowsAlone name) }
    ensures shorter { length pending.new ≤ length pending.old }
    ensures stamped { (sets : Stamps) (next : ℕ) → AllStamped sets next pending.old → IfOk result (λ name. AllStamped sets next pending.new × NameStamped sets next stamp name) }
    ensures err { IfErr result (λ e. NameStops (A.answerer source.now) answers.old t.now pending.old e answers.new) }
{
    let Some(d) = answers.definition(source, t.token.text())? else {
        return Ok(ReadName::Itself);
    };
    let Some((names, variadic)) = d.params() else {
        return Ok(read_object(alloc, t, d, stamp)?);
    };
    if !pending.take_open() {
        return Ok(ReadName::Itself);
    }
    let read = read_call(alloc, t, names, variadic, pending)?;
    let (given, call) = macro_call(alloc, d, names, variadic, read)?;
    Ok(ReadName::Call(given, call))
}
