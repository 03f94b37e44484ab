// A value in memory of its own.
ghost use Rattle.std.specs.Prelude.{◌≡◌, IfOk};

use std::alloc::{AllocError, Global};
use std::marker::Model;

/// A value in memory of its own, which contracts see as the value. What holds one is small, and cheap to move about.
#[derive(Debug, Drop)]
pub struct Boxed<X> {
    value: Box<X>,
}

impl<X> Model for Boxed<X> {
    ghost use Rattle.std.specs.Prelude.{box_value};

    ghost Value = { X };

    ghost view = { λ b. box_value b.value };
}

impl<X: Drop> Boxed<X> {
    /// The only error is want of memory.
    pub fn new(alloc: Global, value: X) -> Result<Boxed<X>, AllocError>
        ensures { IfOk result (λ b. b ≡ value) }
    {
        match Box::new(alloc, value) {
            Ok(value) => Ok(Boxed { value }),
            Err(_) => Err(AllocError),
        }
    }

    /// The value, and its memory is given back.
    pub fn into_inner(self) -> X
        ensures { result ≡ self }
    {
        Box::into_inner(self.value)
    }
}
