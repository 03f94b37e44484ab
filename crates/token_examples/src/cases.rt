// Cases: the body of each, and what it asks for.
use crate::results::{add_counts, add_header, add_nesting, add_pieces, add_result, add_tokens};
use base_types::limits::BODY_LIMIT;
use bstr::ByteVec;
use case_texts::{Cases, Wrong, cut, number_of};
use pp_tokens::{
    Lexed, is_plain, is_simple_name, lex_asking, lex_body, lex_directives, single_token,
};
use std::alloc::{AllocError, Global};

/// Cases of bodies, each on a line.
#[derive(Drop)]
pub struct Bodies;

impl Cases for Bodies {
    fn take(
        &mut self,
        alloc: Global,
        out: &mut String,
        word: &str,
        rest: &str,
    ) -> Result<(), Wrong> {
        if let "trigraphs" = word {
            let (word, text) = cut(rest);
            return do_case(alloc, out, word, text, true);
        }
        do_case(alloc, out, word, rest, false)
    }
}

fn do_case(
    alloc: Global,
    out: &mut String,
    word: &str,
    text: &str,
    trigraphs: bool,
) -> Result<(), Wrong> {
    if let "counts" = word {
        let text = long_text(alloc, text)?;
        return do_body(alloc, out, word, text.as_str(), trigraphs);
    }
    do_body(alloc, out, word, text, trigraphs)
}

// The text that `TIMES PIECE before BACK behind FRONT` stands for.
fn long_text(alloc: Global, text: &str) -> Result<String, Wrong> {
    let (times, pieces) = cut(text);
    let (pieces, front) = pieces.split_once(" behind ").unwrap_or((pieces, ""));
    let (piece, back) = pieces.split_once(" before ").unwrap_or((pieces, ""));
    match number_of(times)? {
        times @ ..=1_000_000 => Ok(repeated(alloc, front, times, piece, back)?),
        _ => Err(Wrong::Form("behind `counts` stands no number up to 1000000")),
    }
}

fn repeated(
    alloc: Global,
    front: &str,
    times: u32,
    piece: &str,
    back: &str,
) -> Result<String, AllocError> {
    let mut text = String::new(alloc);
    text.push_str(front)?;
    for _ in 0..times {
        text.push_str(piece)?;
    }
    text.push_str(back)?;
    Ok(text)
}

fn do_body(
    alloc: Global,
    out: &mut String,
    word: &str,
    text: &str,
    trigraphs: bool,
) -> Result<(), Wrong> {
    let body = Vec::unescape_bytes(alloc, text)?;
    if body.len() > BODY_LIMIT {
        return Err(Wrong::Form("its body has more than 16777216 bytes"));
    }
    match word {
        "plain" => add_result(out, &is_plain(&body))?,
        "simple" => add_result(out, &is_simple_name(&body))?,
        "single" => add_result(out, &single_token(&body))?,
        "directives" => add_tokens(alloc, out, &lex_directives(alloc, body, trigraphs)?)?,
        "asking" => add_tokens(alloc, out, &lex_asking(alloc, body, trigraphs)?)?,
        _ => add_lexed(alloc, out, word, lex_body(alloc, body, trigraphs)?)?,
    }
    Ok(())
}

fn add_lexed(alloc: Global, out: &mut String, word: &str, lexed: Lexed) -> Result<(), Wrong> {
    match word {
        "tokens" => add_tokens(alloc, out, &lexed)?,
        "counts" => add_counts(out, &lexed)?,
        "pieces" => add_pieces(alloc, out, &lexed)?,
        "nesting" => add_nesting(alloc, out, lexed)?,
        "header" => add_header(alloc, out, &lexed)?,
        _ => return Err(Wrong::Form("its first word names no case")),
    }
    Ok(())
}
