// What a test asserts.
ghost use Rattle.std.specs.Prelude.{◌≡◌, true};

use std::process::Abort;

/// A fact holds.
pub fn check(rt: &impl Abort, holds: bool, fact: &str)
    ensures { holds ≡ true }
{
    assert!(rt; holds, "{fact}");
}

/// Bytes are those of a text.
pub fn check_text(rt: &impl Abort, name: &str, bytes: &[u8], text: &str) {
    assert_eq!(rt; shown(bytes), text, "{name}");
}

/// Bytes as a text.
pub fn shown(bytes: &[u8]) -> &str {
    std::str::from_utf8(bytes).unwrap_or("no UTF-8")
}
