//! Parses one line and passes its request to a handler.
ghost use Rattle.std.specs.Prelude.{◌≡◌, IfOk, OnErr, false, map, true};
ghost use Rattle.std.specs.Str.Lines.{strip_carriage_return};
ghost use Rattle.office_lines.specs.parse.Parsing.{begins_request, is_blank, is_comment, is_ignored};
ghost use Rattle.office_lines.specs.parse.Parsing.{parsed_line, parsed_words, words_of};
ghost use Rattle.office_lines.specs.parse.Requests.{names_request};
ghost use Rattle.office_lines.specs.render.Texts.{ResponseAscends};
ghost use Rattle.office_lines.specs.Runs.{Step};

use crate::parse::requests::{names_form, words_to_command};
use crate::parse::word_fault::WordFault;
use crate::render::Response;
use office_core::{Answer, Handler, Request};
use room_types::OutOfMemory;
use std::alloc::{AllocError, Global};

/// Parses a line and passes its request, if any, to the handler. Returns the response. If parsing runs out of memory,
/// the response is `Unavailable`, and the handler is not called.
pub fn handle_line<H: Handler>(alloc: Global, handler: &mut H, line: &[u8]) -> Response
    requires { H.is_ready handler.old }
    ensures step { Step H.handles handler.old line.now result handler.new }
    ensures ascending { ResponseAscends result }
    ensures ready { H.is_ready handler.new }
{
    match parse_line(alloc, line) {
        Ok(ParsedLine::Ignored) => Response::Nothing,
        Ok(ParsedLine::Valid(request)) => Response::Answered(handler.handle(alloc, &request)),
        Ok(ParsedLine::Invalid) => Response::NotUnderstood,
        Err(_) => Response::Answered(Answer::Unavailable),
    }
}

/// A parsed line.
#[derive(Drop)]
pub enum ParsedLine {
    /// The line is a comment or has no words.
    Ignored,
    /// The line is a request.
    Valid(Request),
    /// The line is neither ignored nor a request: it is not UTF-8, or its words are not a request.
    Invalid,
}

/// Parses a line. Ignores one carriage return at the end of the line.
///
/// # Errors
///
/// `OutOfMemory` if an allocation fails. This happens only if the line is UTF-8 and its first word names a request.
#[tactic(auto, unfolding(crate::specs::parse::Parsing::parsed_line, crate::specs::parse::Parsing::begins_request))]
pub fn parse_line(alloc: Global, line: &[u8]) -> Result<ParsedLine, OutOfMemory>
    ensures meaning { IfOk result (λ parsed. parsed ≡ parsed_line line.now) }
    ensures not_ignored { OnErr result (is_ignored (parsed_line line.now) ≡ false) }
    ensures named { OnErr result (begins_request line.now ≡ true) }
{
    if is_comment(line) {
        return Ok(ParsedLine::Ignored);
    }
    let text = strip_carriage_return(line);
    if is_blank(text) {
        return Ok(ParsedLine::Ignored);
    }
    match str::from_utf8(text) {
        Ok(text) => parse_request(alloc, text),
        Err(_) => Ok(ParsedLine::Invalid),
    }
}

// Returns whether the line begins with `#`.
fn is_comment(line: &[u8]) -> bool
    ensures { result ≡ is_comment line.now }
{
    !line.is_empty() && line[0] == b'#'
}

// Drops one carriage return at the end of the line.
fn strip_carriage_return(line: &[u8]) -> &[u8]
    ensures { result.now ≡ strip_carriage_return line.now }
{
    if !line.is_empty() && line[line.len() - 1] == b'\r' {
        return &line[..line.len() - 1];
    }
    line
}

// Returns whether the text is empty or only spaces.
fn is_blank(text: &[u8]) -> bool
    ensures { result ≡ is_blank text.now }
{
    text.iter().all(|b| *b == b' ')
}

// Parses UTF-8 text. Cuts it into a list of words, which allocates, only if the first word names a request.
fn parse_request(alloc: Global, text: &str) -> Result<ParsedLine, OutOfMemory>
    ensures meaning { IfOk result (λ parsed. parsed ≡ parsed_words (words_of text.now)) }
    ensures named { OnErr result (names_request (words_of text.now) ≡ true) }
{
    if !names_request(alloc, text) {
        return Ok(ParsedLine::Invalid);
    }
    let words = words_of(alloc, text)?;
    match words_to_command(alloc, &words) {
        Ok(request) => Ok(ParsedLine::Valid(request)),
        Err(WordFault::NotUnderstood) => Ok(ParsedLine::Invalid),
        Err(WordFault::OutOfMemory) => Err(OutOfMemory {}),
    }
}

// Returns whether the first word names a request.
fn names_request(alloc: Global, text: &str) -> bool
    ensures { result ≡ names_request (words_of text.now) }
{
    match text.split(' ').find(|word| !word.is_empty()) {
        Some(word) => names_form(alloc, word),
        None => false,
    }
}

// Splits the text at spaces into words that are not empty.
fn words_of(alloc: Global, text: &str) -> Result<Vec<&str>, AllocError>
    ensures { IfOk result (λ words. map (λ word. word.now) words.items ≡ words_of text.now) }
{
    text.split(' ')
        .filter(|word| !word.is_empty())
        .collect(alloc)
}
