//! Parses the words of a line into a request. The first word names the form of the request.
ghost use Rattle.std.specs.Prelude.{◌≡◌, IfSome, false, is_some, map};
ghost use Rattle.room_types.specs.Grammars.{is_person_id};
ghost use Rattle.office_lines.specs.parse.Understanding.{Understands, OutOfMemoryOnlyIf};
ghost use Rattle.office_lines.specs.parse.Requests.{add_person, add_room, ask_me, ask_moves, ask_what_if, blank, draw};
ghost use Rattle.office_lines.specs.parse.Requests.{going, leave, remove, reopen, set_choices, set_grade, set_home};
ghost use Rattle.office_lines.specs.parse.Requests.{set_key, set_name, shut, withdraw, without_arguments};
ghost use Rattle.office_lines.specs.parse.Requests.{begins_with_person, first_in, is_drawn_word, is_person_pair};
ghost use Rattle.office_lines.specs.parse.Requests.{allocates, allocates_after, form_of, request_after, request_of};

use crate::parse::values::{
    choices_in, drawn_words, grade_of, name_of, only_value, round_number, value_of,
};
use crate::parse::word_fault::WordFault;
use office_core::{Command, Query, Request};
use std::alloc::Global;

/// Parses the words of a line into a request.
///
/// # Errors
///
/// `NotUnderstood` if the words are not a request. `OutOfMemory` if an allocation fails.
///
/// The values of a request are the words after the first word. Parsing runs out of memory only if the number of values
/// fits the form of the request, and the first value is in its grammar. It never does so for a request without values,
/// nor for a `moves` request.
pub fn words_to_command(alloc: Global, words: &[&str]) -> Result<Request, WordFault>
    ensures understands { Understands (request_of (map (λ word. word.now) words.now)) result }
    ensures memory { OutOfMemoryOnlyIf (allocates (map (λ word. word.now) words.now)) result }
{
    match words {
        [first, rest @ ..] => {
            request_after_word(alloc, first, rest).unwrap_or(Err(WordFault::NotUnderstood))
        }
        [] => Err(WordFault::NotUnderstood),
    }
}

/// Returns whether this word, as the first word of a line, names a form of requests. For that it parses a line of this
/// word alone, which never runs out of memory.
pub(crate) fn names_form(alloc: Global, word: &str) -> bool
    ensures { result ≡ is_some (form_of word.now) }
{
    request_after_word(alloc, word, &[]).is_some()
}

// Parses the words that follow the first word of a line. Returns `None` if the first word names no request.
fn request_after_word(
    alloc: Global,
    first: &str,
    rest: &[&str],
) -> Option<Result<Request, WordFault>>
    ensures named { is_some result ≡ is_some (form_of first.now) }
    ensures understands { IfSome result (λ parsed. Understands
        (request_after (form_of first.now) (map (λ word. word.now) rest.now)) parsed) }
    ensures memory { IfSome result (λ parsed. OutOfMemoryOnlyIf
        (allocates_after (form_of first.now) (map (λ word. word.now) rest.now)) parsed) }
{
    match first {
        "room" => Some(parse_add_room(alloc, rest)),
        "person" => Some(parse_add_person(alloc, rest)),
        "home" => Some(parse_set_home(alloc, rest)),
        "leave" => Some(parse_leave(alloc, rest)),
        "remove" => Some(parse_remove(alloc, rest)),
        "grade" => Some(parse_set_grade(alloc, rest)),
        "name" => Some(parse_set_name(alloc, rest)),
        "key" => Some(parse_set_key(alloc, rest)),
        "blank" => Some(parse_blank(alloc, rest)),
        "shut" => Some(parse_shut(alloc, rest)),
        "reopen" => Some(parse_reopen(alloc, rest)),
        "open" => Some(without_arguments(rest, Request::Office(Command::OpenRound))),
        "close" => Some(without_arguments(rest, Request::Office(Command::CloseRound))),
        "run" => Some(without_arguments(rest, Request::Office(Command::Run))),
        "publish" => Some(without_arguments(rest, Request::Office(Command::Publish))),
        "settle" => Some(without_arguments(rest, Request::Office(Command::Settle))),
        "cancel" => Some(without_arguments(rest, Request::Office(Command::Cancel))),
        "choose" => Some(parse_set_choices(alloc, rest)),
        "withdraw" => Some(parse_withdraw(alloc, rest)),
        "going" => Some(parse_going(alloc, rest)),
        "draw" => Some(parse_draw(alloc, rest)),
        "rooms" => Some(without_arguments(rest, Request::Ask(Query::Rooms))),
        "people" => Some(without_arguments(rest, Request::Ask(Query::People))),
        "round" => Some(without_arguments(rest, Request::Ask(Query::Round))),
        "order" => Some(without_arguments(rest, Request::Ask(Query::Order))),
        "results" => Some(without_arguments(rest, Request::Ask(Query::Results))),
        "moves" => Some(parse_moves(rest)),
        "me" => Some(parse_me(alloc, rest)),
        "whatif" => Some(parse_what_if(alloc, rest)),
        _ => None,
    }
}

fn parse_add_room(alloc: Global, words: &[&str]) -> Result<Request, WordFault>
    ensures understands { Understands (add_room (map (λ word. word.now) words.now)) result }
    ensures memory { OutOfMemoryOnlyIf
        (is_some (add_room (map (λ word. word.now) words.now))) result }
{
    let room = only_value(alloc, words)?;
    Ok(Request::Office(Command::AddRoom { room }))
}

// The words after the key, joined by one space, are the name.
fn parse_add_person(alloc: Global, words: &[&str]) -> Result<Request, WordFault>
    ensures understands { Understands (add_person (map (λ word. word.now) words.now)) result }
    ensures memory { OutOfMemoryOnlyIf
        (begins_with_person 3 (map (λ word. word.now) words.now)) result }
{
    match words {
        [person, key, name @ ..] if !name.is_empty() => {
            let person = value_of(alloc, person)?;
            let key = value_of(alloc, key)?;
            let name = name_of(alloc, name)?;
            Ok(Request::Office(Command::AddPerson {
                person,
                name,
                key,
                home: None,
            }))
        }
        _ => Err(WordFault::NotUnderstood),
    }
}

fn parse_set_home(alloc: Global, words: &[&str]) -> Result<Request, WordFault>
    ensures understands { Understands (set_home (map (λ word. word.now) words.now)) result }
    ensures memory { OutOfMemoryOnlyIf (is_person_pair (map (λ word. word.now) words.now)) result }
{
    match words {
        [person, room] => {
            let person = value_of(alloc, person)?;
            let room = value_of(alloc, room)?;
            Ok(Request::Office(Command::SetHome { person, room }))
        }
        _ => Err(WordFault::NotUnderstood),
    }
}

fn parse_leave(alloc: Global, words: &[&str]) -> Result<Request, WordFault>
    ensures understands { Understands (leave (map (λ word. word.now) words.now)) result }
    ensures memory { OutOfMemoryOnlyIf (is_some (leave (map (λ word. word.now) words.now))) result }
{
    let person = only_value(alloc, words)?;
    Ok(Request::Office(Command::Leave { person }))
}

fn parse_remove(alloc: Global, words: &[&str]) -> Result<Request, WordFault>
    ensures understands { Understands (remove (map (λ word. word.now) words.now)) result }
    ensures memory { OutOfMemoryOnlyIf
        (is_some (remove (map (λ word. word.now) words.now))) result }
{
    let person = only_value(alloc, words)?;
    Ok(Request::Office(Command::Remove { person }))
}

fn parse_set_grade(alloc: Global, words: &[&str]) -> Result<Request, WordFault>
    ensures understands { Understands (set_grade (map (λ word. word.now) words.now)) result }
    ensures memory { OutOfMemoryOnlyIf (is_person_pair (map (λ word. word.now) words.now)) result }
{
    match words {
        [person, grade] => {
            let person = value_of(alloc, person)?;
            let grade = grade_of(grade)?;
            Ok(Request::Office(Command::SetGrade { person, grade }))
        }
        _ => Err(WordFault::NotUnderstood),
    }
}

// The words after the identifier, joined by one space, are the name.
fn parse_set_name(alloc: Global, words: &[&str]) -> Result<Request, WordFault>
    ensures understands { Understands (set_name (map (λ word. word.now) words.now)) result }
    ensures memory { OutOfMemoryOnlyIf
        (begins_with_person 2 (map (λ word. word.now) words.now)) result }
{
    match words {
        [person, name @ ..] if !name.is_empty() => {
            let person = value_of(alloc, person)?;
            let name = name_of(alloc, name)?;
            Ok(Request::Office(Command::SetName { person, name }))
        }
        _ => Err(WordFault::NotUnderstood),
    }
}

fn parse_set_key(alloc: Global, words: &[&str]) -> Result<Request, WordFault>
    ensures understands { Understands (set_key (map (λ word. word.now) words.now)) result }
    ensures memory { OutOfMemoryOnlyIf (is_person_pair (map (λ word. word.now) words.now)) result }
{
    match words {
        [person, key] => {
            let person = value_of(alloc, person)?;
            let key = value_of(alloc, key)?;
            Ok(Request::Office(Command::SetKey { person, key }))
        }
        _ => Err(WordFault::NotUnderstood),
    }
}

fn parse_blank(alloc: Global, words: &[&str]) -> Result<Request, WordFault>
    ensures understands { Understands (blank (map (λ word. word.now) words.now)) result }
    ensures memory { OutOfMemoryOnlyIf (is_some (blank (map (λ word. word.now) words.now))) result }
{
    let label = only_value(alloc, words)?;
    Ok(Request::Office(Command::Blank { label }))
}

fn parse_shut(alloc: Global, words: &[&str]) -> Result<Request, WordFault>
    ensures understands { Understands (shut (map (λ word. word.now) words.now)) result }
    ensures memory { OutOfMemoryOnlyIf (is_some (shut (map (λ word. word.now) words.now))) result }
{
    let room = only_value(alloc, words)?;
    Ok(Request::Office(Command::Shut { room }))
}

fn parse_reopen(alloc: Global, words: &[&str]) -> Result<Request, WordFault>
    ensures understands { Understands (reopen (map (λ word. word.now) words.now)) result }
    ensures memory { OutOfMemoryOnlyIf
        (is_some (reopen (map (λ word. word.now) words.now))) result }
{
    let room = only_value(alloc, words)?;
    Ok(Request::Office(Command::Reopen { room }))
}

fn parse_set_choices(alloc: Global, words: &[&str]) -> Result<Request, WordFault>
    ensures understands { Understands (set_choices (map (λ word. word.now) words.now)) result }
    ensures memory { OutOfMemoryOnlyIf
        (first_in is_person_id (map (λ word. word.now) words.now)) result }
{
    match words {
        [person, rooms @ ..] => {
            let person = value_of(alloc, person)?;
            let choices = choices_in(alloc, rooms)?;
            Ok(Request::Office(Command::SetChoices { person, choices }))
        }
        [] => Err(WordFault::NotUnderstood),
    }
}

fn parse_withdraw(alloc: Global, words: &[&str]) -> Result<Request, WordFault>
    ensures understands { Understands (withdraw (map (λ word. word.now) words.now)) result }
    ensures memory { OutOfMemoryOnlyIf
        (is_some (withdraw (map (λ word. word.now) words.now))) result }
{
    let person = only_value(alloc, words)?;
    Ok(Request::Office(Command::Withdraw { person }))
}

fn parse_going(alloc: Global, words: &[&str]) -> Result<Request, WordFault>
    ensures understands { Understands (going (map (λ word. word.now) words.now)) result }
    ensures memory { OutOfMemoryOnlyIf (is_some (going (map (λ word. word.now) words.now))) result }
{
    let person = only_value(alloc, words)?;
    Ok(Request::Office(Command::Going { person }))
}

fn parse_draw(alloc: Global, words: &[&str]) -> Result<Request, WordFault>
    ensures understands { Understands (draw (map (λ word. word.now) words.now)) result }
    ensures memory { OutOfMemoryOnlyIf
        (first_in is_drawn_word (map (λ word. word.now) words.now)) result }
{
    let words = drawn_words(alloc, words)?;
    Ok(Request::Office(Command::Draw { words }))
}

fn parse_moves(words: &[&str]) -> Result<Request, WordFault>
    ensures understands { Understands (ask_moves (map (λ word. word.now) words.now)) result }
    ensures memory { OutOfMemoryOnlyIf false result }
{
    match words {
        [round] => {
            let round = round_number(round)?;
            Ok(Request::Ask(Query::Moves(round)))
        }
        _ => Err(WordFault::NotUnderstood),
    }
}

fn parse_me(alloc: Global, words: &[&str]) -> Result<Request, WordFault>
    ensures understands { Understands (ask_me (map (λ word. word.now) words.now)) result }
    ensures memory { OutOfMemoryOnlyIf
        (is_some (ask_me (map (λ word. word.now) words.now))) result }
{
    let key = only_value(alloc, words)?;
    Ok(Request::Ask(Query::Me(key)))
}

fn parse_what_if(alloc: Global, words: &[&str]) -> Result<Request, WordFault>
    ensures understands { Understands (ask_what_if (map (λ word. word.now) words.now)) result }
    ensures memory { OutOfMemoryOnlyIf
        (first_in is_person_id (map (λ word. word.now) words.now)) result }
{
    match words {
        [person, rooms @ ..] => {
            let person = value_of(alloc, person)?;
            let choices = choices_in(alloc, rooms)?;
            Ok(Request::Ask(Query::WhatIf(person, choices)))
        }
        [] => Err(WordFault::NotUnderstood),
    }
}

// Returns the request if no words follow the first word. Otherwise fails with `NotUnderstood`.
fn without_arguments(words: &[&str], request: Request) -> Result<Request, WordFault>
    ensures understands { Understands
        (without_arguments request (map (λ word. word.now) words.now)) result }
    ensures memory { OutOfMemoryOnlyIf false result }
{
    if words.is_empty() {
        Ok(request)
    } else {
        Err(WordFault::NotUnderstood)
    }
}
