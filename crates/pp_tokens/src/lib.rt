//! Preprocessing tokens: translation phases 1 to 3 of ISO C (5.1.1.2, 6.4).
#![tactic(auto)]

mod class;
mod comment;
mod due;
mod excerpt;
mod law;
mod lexer;
mod marks;
mod part;
mod place;
mod plain;
mod quoted;
mod run;
mod single;
mod source;
mod text_line;
mod token;
mod token_cow;
mod tokens;
mod unpaired;

pub use base_types::{Bytes, List};
pub use class::is_text_mark;
pub use excerpt::Excerpt;
pub use law::{one_reading, tokens_are_slices};
pub use lexer::{Lexed, lex, lex_asking, lex_body, lex_directives};
pub use plain::{is_plain, is_simple_name};
pub use single::{goes_on, single_token};
pub use token::{Kind, Token, TokenRef};
pub use token_cow::TokenCow;
pub use tokens::Tokens;
