// What the number of a token may be.
ghost use Rattle.std.specs.Prelude.{◌≡◌, ◌≤◌, ◌+◌, None};
ghost use Rattle.base_types.specs.Limits.{body_limit};
ghost use Rattle.job_frames.specs.Fields.{within, fits, bare, only};
ghost use Rattle.job_frames.specs.parts.Numbers.{told_judge};

use crate::FrameError;

// A number from low to high, whose token and body fit the room.
#[tactic(auto, using(std::proofs::lemmas::Bool::Decides::nat_tests))]
pub fn judge_body(room: u32, low: u32, high: u32, n: u32) -> Option<FrameError>
    requires { high ≤ body_limit }
    ensures answer { told_judge result ≡ fits room low high n }
    ensures room { result ≡ None → 12 + n ≤ room }
    ensures small { result ≡ None → n ≤ high }
{
    if n < low || n > high {
        return Some(FrameError::Limit);
    }
    if 12 + n > room {
        return Some(FrameError::Limit);
    }
    None
}

// A token without a body that fits the room.
#[tactic(auto, using(std::proofs::lemmas::Bool::Decides::nat_tests))]
pub fn judge_bare(room: u32, why: Option<FrameError>) -> Option<FrameError>
    ensures answer { told_judge result ≡ bare room (told_judge why) }
    ensures room { result ≡ None → 12 ≤ room }
{
    match why {
        Some(e) => Some(e),
        None => {
            if room < 12 {
                Some(FrameError::Limit)
            } else {
                None
            }
        }
    }
}

// A number up to high.
#[tactic(auto, using(std::proofs::lemmas::Bool::Decides::nat_tests))]
pub fn judge_within(high: u32, n: u32) -> Option<FrameError>
    ensures { told_judge result ≡ within 0 high n }
{
    if n > high {
        Some(FrameError::Limit)
    } else {
        None
    }
}

// This version alone.
#[tactic(auto, using(std::proofs::lemmas::Bool::Decides::nat_tests))]
pub fn judge_version(version: u32, n: u32) -> Option<FrameError>
    ensures { told_judge result ≡ only version 2 n }
{
    if n == version {
        None
    } else {
        Some(FrameError::Version)
    }
}

// No number but 0.
#[tactic(auto, using(std::proofs::lemmas::Bool::Decides::nat_tests))]
pub fn judge_zero(n: u32) -> Option<FrameError>
    ensures { told_judge result ≡ only 0 5 n }
{
    if n == 0 {
        None
    } else {
        Some(FrameError::Limit)
    }
}
