// Computed targets.
ghost use Rattle.std.specs.Prelude.{◌≡◌};

use base_types::List;
use pp_tokens::Token;
use search_path::Form;
use std::marker::Model;

/// Tokens that name a file once they are expanded (ISO C 6.10.2): of an include, or of an operand of `__has_include`.
#[derive(Drop)]
pub struct Computed {
    form: Form,
    probe: bool,
    tokens: List<Token>,
}

impl Model for Computed {
    ghost use Rattle.sheet_build.specs.Sheet.{ComputedAsk};

    ghost Value = { ComputedAsk };

    ghost view = { λ c. record { form = c.form; probe = c.probe; tokens = c.tokens } };
}

impl Computed {
    // Computed tokens.
    pub(crate) fn new(form: Form, probe: bool, tokens: List<Token>) -> Computed
        ensures form { result.form ≡ form }
        ensures probe { result.probe ≡ probe }
        ensures tokens { result.tokens ≡ tokens }
    {
        Computed {
            form,
            probe,
            tokens,
        }
    }

    /// The form in which a name in quotes is asked for.
    pub fn form(&self) -> Form
        ensures { result ≡ self.now.form }
    {
        self.form
    }

    /// Whether its file is only probed for.
    pub fn is_probe(&self) -> bool
        ensures { result ≡ self.now.probe }
    {
        self.probe
    }

    /// The tokens, as they stand in the file.
    pub fn tokens(&self) -> &[Token]
        ensures { result.now ≡ self.now.tokens }
    {
        self.tokens.as_slice()
    }
}
