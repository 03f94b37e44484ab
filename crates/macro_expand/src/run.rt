// A place in a run of text.
ghost use Rattle.std.specs.Prelude.{◌≡◌};
ghost use Rattle.std.specs.Option.{option_map};
ghost use Rattle.std.specs.Prelude.{slice_get};
ghost use Rattle.pp_tokens.specs.Tokens.{token_seen};
ghost use Rattle.macro_defs.specs.Runs.{run_tokens};

use macro_defs::Run;
use pp_tokens::TokenRef;

// The token at a place; none behind the last. It costs a step for each token before it.
pub(crate) fn get<'a>(mut run: Run<'a>, place: usize) -> Option<TokenRef<'a>>
    ensures { option_map token_seen result ≡ slice_get (run_tokens run.entry) place }
{
    for _before in 0..place {
        match run.next() {
            Some(_) => {}
            None => return None,
        }
    }
    run.next()
}
