// A macro definition.
ghost use Rattle.std.specs.Prelude.{◌≡◌, IfOk, slice_get};
ghost use Rattle.std.specs.Option.{option_flatten};
ghost use Rattle.macro_defs.specs.Arguments.{parameters_in};
ghost use Rattle.macro_defs.specs.MacroDefinition.{shape_lent, has_operators};
ghost use Rattle.macro_defs.specs.parts.Kept.{shape_kept, numbers_of, operators_of};
ghost use Rattle.macro_defs.specs.parts.Stored.{numbers_kept};

use crate::body::Body;
use crate::copies::{copy_numbers, copy_shape};
use crate::marks::has_operator;
use crate::numbers::numbers_in;
use crate::run::Run;
use crate::sameness::{same_params, same_tokens};
use base_types::{Bytes, List};
use pp_tokens::{Lexed, Token};
use std::alloc::{AllocError, Global};
use std::marker::Model;
use std::sync::Arc;
use thiserror::Error;

/// The form of a macro (ISO C 6.10.3 paragraphs 9 and 10). `params` are the parameters' names in order. Where `variadic`,
/// the last is that of the variable argument: `__VA_ARGS__` for `...`, `NAME` for `NAME...`.
#[derive(Drop)]
pub enum Shape {
    Object,
    Function { params: List<Bytes>, variadic: bool },
}

/// A macro definition: its form and its replacement list (ISO C 6.10.3). Two are the same where their forms and the kinds,
/// spellings and white space of their tokens are; the lines of the tokens don't count.
#[derive(Drop)]
pub struct Definition {
    body: Body,
    // None of an object-like macro, as most are: so a table's entry for it is small
    function: Option<Box<Function>>,
}

// What a function-like macro has beside its replacement list.
#[derive(Drop)]
pub(crate) struct Function {
    shape: Shape,
    // for each token of the body the number of the parameter that it names; empty where there are no parameters
    named: Vec<Option<u32>>,
    // whether a token of the body is a `#` or a `##`
    operators: bool,
}

impl Model for Definition {
    ghost use Rattle.std.specs.Prelude.{◌≡◌, map};
    ghost use Rattle.macro_defs.specs.MacroDefinition.{MacroDefinition, without_line, has_operators};
    ghost use Rattle.macro_defs.specs.Arguments.{parameters_in};
    ghost use Rattle.macro_defs.specs.parts.Stored.{numbers_kept};
    ghost use Rattle.macro_defs.specs.parts.Kept.{body_tokens, shape_kept, numbers_of, operators_of, MayShare};

    ghost Value = { MacroDefinition };

    ghost view = { λ d. record { shape = shape_kept d.function; body = map without_line (body_tokens d.body) } };

    ghost invariant = { λ d. (numbers_of d.function ≡ numbers_kept (parameters_in (shape_kept d.function)) (body_tokens d.body))
        × ((operators_of d.function ≡ has_operators (shape_kept d.function) (body_tokens d.body)) × MayShare (shape_kept d.function) d.body) };
}

impl Definition {
    ghost use Rattle.std.specs.Prelude.{◌≡◌, ◌-◌, ◌∷◌, [], map, take, drop, IfOk};
    ghost use Rattle.std.specs.Arc.{arc_value};
    ghost use Rattle.pp_tokens.specs.Lines.{all_tokens};
    ghost use Rattle.macro_defs.specs.Defining.{definition_from};
    ghost use Rattle.macro_defs.specs.MacroDefinition.{without_line, has_operators, shape_lent};
    ghost use Rattle.macro_defs.specs.Arguments.{parameter_at};
    ghost use Rattle.macro_defs.specs.Runs.{run_tokens};
    ghost use Rattle.macro_defs.specs.declared.definition.Shape.TheVariants.{Object};
    ghost use Rattle.macro_defs.specs.parts.Kept.{IsPlain, SharesPlain};
    ghost use Rattle.macro_defs.specs.parts.Stored.{numbers_kept};

    /// A definition of this form with this replacement list. Any list is taken: of one that `read_define` refuses, expansion leaves
    /// out a `#` that no parameter follows and a `##` that stands first or last (ISO C 6.10.3.2 paragraph 1, 6.10.3.3 paragraph 1).
    /// The tokens of a macro with parameters are looked up among these here, once: time is linear in both lists, on average. No
    /// memory is taken for an object-like macro. The only error is want of memory, which is also what more than 2^32 parameters give.
    #[inline(always)]
    pub fn new(alloc: Global, shape: Shape, body: List<Token>) -> Result<Definition, AllocError>
        ensures { IfOk result (λ d. d ≡ definition_from shape body) }
    {
        let function = function_of(alloc, shape, body.as_slice())?;
        Ok(Definition {
            body: Body::Listed(body),
            function,
        })
    }

    /// The definition of an object-like macro with one token in its replacement list. It takes no memory but the token's.
    #[inline(always)]
    pub fn of_token(token: Token) -> Definition
        ensures { result ≡ definition_from Object (token ∷ []) }
    {
        Definition {
            body: Body::One(token),
            function: None,
        }
    }

    // An object-like macro, whose replacement list is the tokens of a file from one number up to another.
    #[inline(always)]
    pub(crate) fn shared(
        file: &Arc<Lexed, Global>,
        from: u32,
        end: u32,
    ) -> Result<Definition, AllocError>
        requires { IsPlain Object (take (end - from) (drop from (all_tokens (arc_value file.now)))) }
        ensures { IfOk result (λ d. d ≡ definition_from Object (take (end - from) (drop from (all_tokens (arc_value file.now))))) }
    {
        Ok(Definition {
            body: Body::Shared(Arc::try_clone(file)?, from, end),
            function: None,
        })
    }

    // The same of a function-like macro with these parameters, of which tokens name these.
    pub(crate) fn sharing(
        alloc: Global,
        params: List<Bytes>,
        variadic: bool,
        named: Vec<Option<u32>>,
        file: &Arc<Lexed, Global>,
        from: u32,
        end: u32,
    ) -> Result<Definition, AllocError>
        requires plain { IsPlain (Shape.Function params variadic) (take (end - from) (drop from (all_tokens (arc_value file.now)))) }
        requires named { named.items ≡ numbers_kept params (take (end - from) (drop from (all_tokens (arc_value file.now)))) }
        ensures { IfOk result (λ d. d ≡ definition_from (Shape.Function params variadic) (take (end - from) (drop from (all_tokens (arc_value file.now))))) }
    {
        let body = Body::Shared(Arc::try_clone(file)?, from, end);
        let function = Function {
            shape: Shape::Function { params, variadic },
            named,
            operators: false,
        };
        Ok(Definition {
            body,
            function: Some(Box::new(alloc, function)?),
        })
    }

    /// The names of a function-like macro's parameters, and whether the last is that of the variable argument; None of an object-like
    /// macro.
    #[inline(always)]
    pub fn params(&self) -> Option<(&[Bytes], bool)>
        ensures { shape_lent result ≡ self.now.shape }
    {
        match &self.function {
            Some(function) => lent(&function.shape),
            None => None,
        }
    }

    /// A copy. A file that the definition shares is shared once more. The only error is want of memory.
    pub fn copy(&self, alloc: Global) -> Result<Definition, AllocError>
        ensures { IfOk result (λ d. d ≡ self.now) }
    {
        let body = self.body.copy(alloc)?;
        let function = copy_function(alloc, &self.function)?;
        Ok(Definition { body, function })
    }

    /// The replacement list. What lines its tokens have is not told. Only one without `##` is in a file, and that of a
    /// function-like macro only without `#`.
    #[inline(always)]
    pub fn body(&self) -> Run<'_>
        ensures tokens { map without_line (run_tokens result) ≡ self.now.body }
        ensures shared { SharesPlain self.now.shape result }
    {
        self.body.tokens()
    }

    /// The number, from 0, of the parameter that the token at a place of the replacement list names: the first one whose name
    /// is the token's spelling (ISO C 6.10.3.1 paragraph 1). None where the token names none, past the last token, and for an
    /// object-like macro. It takes constant time.
    #[inline(always)]
    pub fn parameter_at(&self, place: usize) -> Option<usize>
        ensures { result ≡ parameter_at self.now place }
    {
        match &self.function {
            Some(function) => number_at(&function.named, place),
            None => None,
        }
    }

    /// Whether the replacement list of a function-like macro has a `#` or a `##` (ISO C 6.10.3.2, 6.10.3.3); `false` for an object-like
    /// macro, also where its list has a `##`. It takes constant time.
    #[inline(always)]
    pub fn has_operators(&self) -> bool
        ensures { result ≡ has_operators self.now.shape self.now.body }
    {
        match &self.function {
            Some(function) => function.operators,
            None => false,
        }
    }
}

// The parameters of a form.
#[inline(always)]
fn lent(shape: &Shape) -> Option<(&[Bytes], bool)>
    ensures { shape_lent result ≡ shape.now }
{
    match shape {
        Shape::Object => None,
        Shape::Function { params, variadic } => Some((params.as_slice(), *variadic)),
    }
}

// The number at a place, where one is.
#[inline(always)]
fn number_at(numbers: &[Option<u32>], place: usize) -> Option<usize>
    ensures { result ≡ option_flatten (slice_get numbers.now place) }
{
    if place >= numbers.len() {
        return None;
    }
    match numbers[place] {
        Some(number) => Some(number as usize),
        None => None,
    }
}

// What a macro of this form has beside this replacement list.
#[inline(always)]
fn function_of(
    alloc: Global,
    shape: Shape,
    body: &[Token],
) -> Result<Option<Box<Function>>, AllocError>
    ensures shape { IfOk result (λ function. shape_kept function ≡ shape) }
    ensures numbers { IfOk result (λ function. numbers_of function ≡ numbers_kept (parameters_in shape) body.now) }
    ensures operators { IfOk result (λ function. operators_of function ≡ has_operators shape body.now) }
{
    match shape {
        Shape::Object => Ok(None),
        Shape::Function { .. } => {
            let named = numbers_in(alloc, &shape, body)?;
            let function = Function {
                shape,
                named,
                operators: has_operator(body),
            };
            Ok(Some(Box::new(alloc, function)?))
        }
    }
}

fn copy_function(
    alloc: Global,
    function: &Option<Box<Function>>,
) -> Result<Option<Box<Function>>, AllocError>
    ensures shape { IfOk result (λ copy. shape_kept copy ≡ shape_kept function.now) }
    ensures numbers { IfOk result (λ copy. numbers_of copy ≡ numbers_of function.now) }
    ensures operators { IfOk result (λ copy. operators_of copy ≡ operators_of function.now) }
{
    let Some(function) = function else {
        return Ok(None);
    };
    let shape = copy_shape(alloc, &function.shape)?;
    let named = copy_numbers(alloc, function.named.as_slice())?;
    let copy = Function {
        shape,
        named,
        operators: function.operators,
    };
    Ok(Some(Box::new(alloc, copy)?))
}

// Equal exactly where contracts see the same definition, which doesn't tell the lines of its tokens.
impl PartialEq for Definition {
    ghost use Rattle.std.specs.Prelude.{◌≡◌, ◌↔◌, IsTrue};
    ghost use Rattle.std.specs.Cmp.{partial_equiv_from_equiv};
    ghost use Rattle.macro_defs.specs.Sameness.{is_same_definition, is_same_definition-laws};

    ghost eq = { is_same_definition };

    ghost laws = { partial_equiv_from_equiv is_same_definition-laws };

    fn eq(&self, other: &Definition) -> bool
        ensures computed { result ≡ is_same_definition self.now other.now }
        ensures same { IsTrue result ↔ (self.now ≡ other.now) }
    {
        same_params(self.params(), other.params()) && same_tokens(self.body(), other.body())
    }
}

impl Eq for Definition {
    ghost use Rattle.macro_defs.specs.Sameness.{is_same_definition-laws};

    ghost laws = { is_same_definition-laws };
}

/// Why a `#define` line defines nothing. `Name`: no identifier stands first, or one that names no macro of a program
/// (`defined`, `__FILE__`, `__LINE__`, `__VA_ARGS__`, `__has_include`). `Params`: else, a `(` right behind the name begins no
/// list of distinct parameters (ISO C 6.10.3 paragraphs 5, 6 and 10). `PasteEnd`: else, `##` stands first or last in the
/// replacement list (6.10.3.3 paragraph 1). `Hash`: else, a `#` of a function-like macro is followed by no parameter (6.10.3.2
/// paragraph 1). `Memory`: no memory was found. Each is shown by its name.
#[derive(Clone, Copy, Debug, PartialEq, Eq, Drop, Error)]
pub enum DefineError {
    #[error("Name")]
    Name,
    #[error("Params")]
    Params,
    #[error("PasteEnd")]
    PasteEnd,
    #[error("Hash")]
    Hash,
    #[error("Memory")]
    Memory,
}

impl From<AllocError> for DefineError {
    ghost use Rattle.std.specs.Prelude.{◌≡◌};
    ghost use Rattle.macro_defs.specs.declared.definition.DefineError.TheVariants.{Memory};

    ghost from_gives = { λ _ e. e ≡ Memory };

    fn from(_e: AllocError) -> DefineError {
        DefineError::Memory
    }
}
