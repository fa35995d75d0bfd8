//! The response to an input line.
use office_core::Answer;

/// The response to an input line.
#[derive(Drop)]
pub enum Response {
    /// No response: the line is a comment or has no words.
    Nothing,
    /// The answer to a request.
    Answered(Answer),
    /// The line could not be parsed: it is not UTF-8, or its words are not a request.
    NotUnderstood,
}
