// Which field of a request or an image is due, and what its number may be.
// The tokens. A number is how many words or entries are left behind the present one.
#[derive(Clone, Copy, Drop)]
pub enum Token {
    Version,
    Place,
    Argc,
    Word(u32),
    Count,
    Name(u32),
    Dir(u32),
    Link(u32),
    File(u32),
}

// The bodies.
#[derive(Clone, Copy, Drop)]
pub enum Body {
    Place,
    Word(u32),
    Path(u32),
    Target(u32),
    File(u32),
}

// Which field is due; `Kind` is the first letter of a node's token. A body's second number is its length.
#[derive(Clone, Copy, Drop)]
pub enum Due {
    Token(Token),
    Body(Body, u32),
    Kind(u32),
    Whole,
}
