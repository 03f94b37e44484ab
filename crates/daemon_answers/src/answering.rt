// The reply that carries an outcome.
ghost use Rattle.std.specs.Prelude.{◌≡◌};
ghost use Rattle.daemon_answers.specs.Answers.{carried};

use daemon_cpp::Outcome;
use job_frames::Answer;

/// The reply that carries what preprocessing gave.
pub fn answer_of(outcome: Outcome) -> Answer
    ensures { result ≡ carried outcome }
{
    match outcome {
        Outcome::Text(text) => Answer::Text(text),
        Outcome::Diag(words) => Answer::Diag(words),
    }
}
