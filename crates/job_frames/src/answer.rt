// What a reply says.
use base_types::Bytes;

/// A text of at most 67,108,864 bytes, a diagnostic of 1 to 65,536 bytes, or a refusal by a reason from 1 to 9.
#[derive(Debug, Drop)]
pub enum Answer {
    Text(Bytes),
    Diag(Bytes),
    Refused(u8),
}
