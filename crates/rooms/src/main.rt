//! The program `rooms`: passes its arguments and its standard streams to `carry_out`.
#![tactic(auto)]

ghost use Rattle.std.specs.Prelude.{◌≡◌, ◌<◌, IfOk, OnErr, drop, length, map, string_bytes};

use office_cli::{WordFault, carry_out, refuse};
use room_types::Watched;
use std::alloc::{AllocError, Global};
use std::process::ExitCode;
use std::{env, io};

fn main(rt: HostRuntime) -> ExitCode {
    let mut input = Watched::new(rt.reader());
    let mut output = Watched::new(io::writer(&rt));
    let mut error = Watched::new(rt.stderr());
    let status = match words_of_main(&rt) {
        Ok(words) => match texts_after_name(rt.alloc(), &words) {
            Ok(texts) => carry_out(&rt, &texts, &mut input, &mut output, &mut error),
            Err(_) => refuse(WordFault::OutOfMemory, &mut output, &mut error),
        },
        Err(fault) => refuse(fault, &mut output, &mut error),
    };
    ExitCode::from(status)
}

// Returns the arguments from the system, the program's name first. Fails with `NotUnderstood` if an argument is not
// UTF-8, and with `OutOfMemory` at any other failure.
fn words_of_main(rt: &HostRuntime) -> Result<Vec<String>, WordFault> {
    match env::args(rt) {
        Ok(words) => {
            let words = words.collect(rt.alloc())?;
            Ok(words)
        }
        Err(error) => match error.kind() {
            io::ErrorKind::InvalidData => Err(WordFault::NotUnderstood),
            _ => Err(WordFault::OutOfMemory),
        },
    }
}

// Returns the arguments after the program's name as texts. Allocates only if there are any.
fn texts_after_name<'a>(alloc: Global, words: &'a [String]) -> Result<Vec<&'a str>, AllocError>
    ensures texts { IfOk result
        (λ texts. map (λ text. text.now) texts.items ≡ drop 1 (map string_bytes words.now)) }
    ensures memory { OnErr result (1 < length words.now) }
{
    let mut texts = Vec::new(alloc);
    let [_name, rest @ ..] = words else {
        return Ok(texts);
    };
    for word in rest {
        texts.push(word.as_str())?;
    }
    Ok(texts)
}
