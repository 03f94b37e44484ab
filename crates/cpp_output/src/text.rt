// The bytes of an output, which never pass its limit.
ghost use Rattle.std.specs.Prelude.{◌≡◌, ℕ, ◌<◌, ◌≤◌, ◌++◌, List, [], length, replicate, OnOk, IsErrOf};
ghost use Rattle.base_types.specs.Ascii as ascii;
ghost use Rattle.base_types.specs.Limits.{text_limit};
ghost use Rattle.cpp_output.specs.Layout.{marker};

use crate::layout::LayError;
use base_types::Bytes;
use base_types::limits::TEXT_LIMIT;
use itoa::Buffer;
use std::alloc::Global;
use std::marker::Model;

const NEWLINES: [u8; 64] = [b'\n'; 64];

#[derive(Drop)]
pub struct Text {
    bytes: Vec<u8>,
}

impl Model for Text {
    ghost use Rattle.std.specs.Prelude.{ℕ, List, length, ◌≤◌};
    ghost use Rattle.base_types.specs.Limits.{text_limit};

    ghost Value = { List ℕ };

    ghost view = { λ t. t.bytes.items };

    ghost invariant = { λ t. length t.bytes.items ≤ text_limit };
}

impl Text {
    pub fn new(alloc: Global) -> Text
        ensures { result ≡ [] }
    {
        Text {
            bytes: Vec::new(alloc),
        }
    }

    // Takes room for so many bytes more at once, where there is that much memory.
    pub fn make_room(&mut self, more: usize)
        ensures { self.new ≡ self.old }
    {
        let _ = self.bytes.reserve(more.min(TEXT_LIMIT));
    }

    #[inline(always)]
    pub fn append(&mut self, more: &[u8]) -> Result<(), LayError>
        ensures ok { OnOk result (self.new ≡ self.old ++ more.now) }
        ensures within { length self.new ≤ text_limit }
        ensures full { IsErrOf result LayError.Full → text_limit < length (self.old ++ more.now) }
    {
        if more.len() > TEXT_LIMIT - self.bytes.len() {
            return Err(LayError::Full);
        }
        self.bytes.extend_from_slice(more)?;
        Ok(())
    }

    pub fn append_newlines(&mut self, count: u64) -> Result<(), LayError>
        ensures ok { OnOk result (self.new ≡ self.old ++ replicate count ascii.newline) }
        ensures within { length self.new ≤ text_limit }
        ensures full { IsErrOf result LayError.Full → text_limit < length (self.old ++ replicate count ascii.newline) }
    {
        for _block in 0..count / 64 {
            self.append(&NEWLINES)?;
        }
        self.append(&NEWLINES[..(count % 64) as usize])
    }

    // `# LINE "NAME"`, a flag, and a newline.
    #[tactic(auto, unfolding(crate::specs::Layout::marker))]
    pub fn append_marker(&mut self, line: i64, name: &[u8], flag: &[u8]) -> Result<(), LayError>
        ensures ok { OnOk result (self.new ≡ self.old ++ marker line name.now flag.now) }
        ensures within { length self.new ≤ text_limit }
        ensures full { IsErrOf result LayError.Full → text_limit < length (self.old ++ marker line name.now flag.now) }
    {
        let mut number = Buffer::new();
        self.append(b"# ")?;
        self.append(number.format(line).as_bytes())?;
        self.append(b" \"")?;
        self.append(name)?;
        self.append(b"\"")?;
        self.append(flag)?;
        self.append(b"\n")
    }

    pub fn into_bytes(self) -> Bytes
        ensures value { result ≡ self }
        ensures within { length result ≤ text_limit }
    {
        Bytes::of(self.bytes)
    }
}
