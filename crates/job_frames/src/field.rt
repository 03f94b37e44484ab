// The fields of frames, and a frame that is read field by field.
ghost use Rattle.std.specs.Prelude.{◌≡◌, ◌<◌, ℕ, List, length, Some, true, Ok};
ghost use Rattle.job_frames.specs.Formats.{Format};
ghost use Rattle.job_frames.specs.parts.Dues.{due_of, size_of, is_token_due, behind_token, behind_body, at_letter, Went};
ghost use Rattle.job_frames.specs.declared.field.Field.TheVariants as field;

use crate::FrameError;

// A field that may be due: a token with these letters, a body of so many bytes, or any byte, which tells by its letter
// which token it begins; or all has come.
#[derive(Clone, Copy, Drop)]
pub enum Field {
    Token([u8; 4]),
    Body(u32),
    Letter,
    Whole,
}

// How many bytes a field has.
pub fn size(due: Field) -> usize
    ensures { result ≡ size_of due }
{
    match due {
        Field::Token(_) => 12,
        Field::Body(n) => n as usize,
        Field::Letter => 1,
        Field::Whole => 0,
    }
}

// A frame as far as it was read: which field is due, and the parts that came before it. Its format says what is due, and
// each call takes one field off.
pub trait Frame {
    // what is read in the end
    ghost Got: { Type 0 };

    // what is due
    ghost format: { Self → Format Got };

    // how many fields may be due yet
    ghost rank: { Self → ℕ };

    ghost Keeps: { Self → Type 0 };

    // Which field is due.
    fn due(&self) -> Field
        requires { Keeps self.now }
        ensures { due_of (format self.now) ≡ Some result };

    // Takes the number of the token that is due.
    fn take_token(&mut self, n: u32) -> Result<(), FrameError>
        requires due { is_token_due (due_of (format self.old)) ≡ true }
        requires keeps { Keeps self.old }
        ensures { Went format rank Keeps (behind_token (format self.old) n) (rank self.old) self.new result };

    // Takes the body that is due.
    fn take_body(&mut self, body: Vec<u8>) -> Result<(), FrameError>
        requires due { due_of (format self.old) ≡ Some (field.Body (length body.items)) }
        requires keeps { Keeps self.old }
        ensures { Went format rank Keeps (behind_body (format self.old) body.items) (rank self.old) self.new result };

    // Chooses the token that is due by its first letter.
    fn choose(&mut self, letter: u8)
        requires due { due_of (format self.old) ≡ Some field.Letter }
        requires keeps { Keeps self.old }
        ensures went { Went format rank Keeps (at_letter (format self.old) letter) (rank self.old) self.new (Ok tt) }
        ensures token { is_token_due (due_of (format self.new)) ≡ true };
}
