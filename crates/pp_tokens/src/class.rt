// What a single byte may be (ISO C 5.2.1, 6.4). A byte's class is one look into a table.
ghost use Rattle.std.specs.Prelude.{◌≡◌};
ghost use Rattle.pp_tokens.specs.Grammar.{is_digit, is_identifier_byte, is_identifier_start, is_white};
ghost use Rattle.pp_tokens.specs.parts.Text.{is_second, is_single};
ghost use Rattle.pp_tokens.specs.parts.TextLines.{is_ordinary};
ghost use Rattle.pp_tokens.specs.Plain.{is_text_mark};

// The flags of a class.
const START: u8 = 1;

const WORD: u8 = 2;

const WHITE: u8 = 4;

const SECOND: u8 = 8;

const SINGLE: u8 = 16;

const ORDINARY: u8 = 32;

// Set for each byte but the punctuators of one byte that begin no longer one.
const LONGER: u8 = 64;

// For each byte the sum of the flags above.
static CLASS: [u8; 256] = *b"\
    `````````d@ddd``````````````````\
    dp@xcxx@00px0xxPbbbbbbbbbbx0xxxp\
    `cccccccccccccccccccccccccc0`0pc\
    `cccccccccccccccccccccccccc0x0p`\
    cccccccccccccccccccccccccccccccc\
    cccccccccccccccccccccccccccccccc\
    cccccccccccccccccccccccccccccccc\
    cccccccccccccccccccccccccccccccc";

/// Whether a byte begins an identifier.
pub fn is_identifier_start(b: u8) -> bool
    ensures { result ≡ is_identifier_start b }
{
    CLASS[b as usize] & START != 0
}

/// Whether a byte goes on with an identifier.
pub fn is_identifier_byte(b: u8) -> bool
    ensures { result ≡ is_identifier_byte b }
{
    CLASS[b as usize] & WORD != 0
}

/// Whether a byte is white space within a line.
pub fn is_white(b: u8) -> bool
    ensures { result ≡ is_white b }
{
    CLASS[b as usize] & WHITE != 0
}

/// Whether a byte is the second of a punctuator.
pub fn is_second(b: u8) -> bool
    ensures { result ≡ is_second b }
{
    CLASS[b as usize] & SECOND != 0
}

/// Whether a byte is a punctuator.
pub fn is_single(b: u8) -> bool
    ensures { result ≡ is_single b }
{
    CLASS[b as usize] & SINGLE != 0
}

/// Whether a byte is one of `;` `,` `(` `)` `{` `}` `[` `]`: the punctuators of one byte that no longer one begins with.
pub fn is_text_mark(b: u8) -> bool
    ensures { result ≡ is_text_mark b }
{
    CLASS[b as usize] & LONGER == 0
}

/// Whether a byte neither ends a line nor begins or ends a comment or a literal.
pub fn is_ordinary(b: u8) -> bool
    ensures { result ≡ is_ordinary b }
{
    CLASS[b as usize] & ORDINARY != 0
}

pub fn is_digit(b: u8) -> bool
    ensures { result ≡ is_digit b }
{
    b'0' <= b && b <= b'9'
}
