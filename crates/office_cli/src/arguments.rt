//! Parsing the program's arguments.
ghost use Rattle.std.specs.Prelude.{◌≡◌, ◌≢◌, ◌<◌, ◌≤◌, IfErr, IfSome, length, map, option_map};
ghost use Rattle.clap.specs.Words.{all_of, first_of, found_of, kind_of, rows_of};
ghost use Rattle.office_cli.specs.Programs.{do_program, entered_line, export_program, import_program};
ghost use Rattle.office_cli.specs.Programs.{export_kind_named, label_given, line_of};
ghost use Rattle.office_cli.specs.Programs.{lines_program, list_kind_given, migrate_program, new_program, number_of};
ghost use Rattle.office_cli.specs.Programs.{program_of, serve_program, words_program};
ghost use Rattle.office_lines.specs.parse.Understanding.{Understands, UnderstandsAs};

use crate::seeds::parse_seed;
use crate::usage::{CONNECTION_COUNT_LIMIT, PORT_LIMIT, Program, WORDS_LIMIT, rooms_command};
use clap::error::ErrorKind;
use clap::{ArgMatches, Error};
use office_lines::parse::WordFault;
use office_lists::ExportKind;
use room_types::{Label, ListKind, TypeFault};
use std::alloc::Global;

/// Parses `words`, the arguments after the program's name, and returns the subcommand. If there are no words, the
/// subcommand is `rehearse`, and the call does not allocate.
///
/// # Errors
///
/// `NotUnderstood` only if the words are not a subcommand. `OutOfMemory` if an allocation fails. Without words, the
/// call always succeeds.
pub fn program<'a>(alloc: Global, words: &'a [&'a str]) -> Result<Program<'a>, WordFault>
    ensures understands { UnderstandsAs line_of
        (program_of (map (λ word. word.now) words.entry.now)) result }
    ensures some { IfErr result
        (λ fault. fault ≡ WordFault.OutOfMemory → 0 < length words.entry.now) }
{
    if words.is_empty() {
        return Ok(Program::Rehearse);
    }
    let command = rooms_command(alloc)?;
    match command.try_get_matches_from(words) {
        Ok(matches) => match matches.subcommand() {
            Some((name, entries)) => entered_line(alloc, name, entries),
            None => Err(WordFault::NotUnderstood),
        },
        Err(error) => Err(fault_of(&error)),
    }
}

// Returns the subcommand with this name and the arguments in `entries`. Fails with `NotUnderstood` if they give no
// subcommand, and with `OutOfMemory` if an allocation fails.
fn entered_line<'a>(
    alloc: Global,
    name: &str,
    entries: &ArgMatches<'a>,
) -> Result<Program<'a>, WordFault>
    ensures { UnderstandsAs line_of
        (entered_line (name.now, rows_of (found_of entries.now))) result }
{
    match name {
        "new" => understood(new_program(entries)),
        "do" => do_program(alloc, entries),
        "lines" => understood(lines_program(entries)),
        "rehearse" => Ok(Program::Rehearse),
        "words" => understood(words_program(entries)),
        "import" => import_program(alloc, entries),
        "export" => understood(export_program(entries)),
        "serve" => understood(serve_program(entries)),
        "migrate" => understood(migrate_program(entries)),
        _ => Err(WordFault::NotUnderstood),
    }
}

// Returns the subcommand, or `NotUnderstood` if there is none.
fn understood<'a>(line: Option<Program<'a>>) -> Result<Program<'a>, WordFault>
    ensures { UnderstandsAs line_of (option_map line_of line.entry) result }
{
    line.ok_or(WordFault::NotUnderstood)
}

fn new_program<'a>(entries: &ArgMatches<'a>) -> Option<Program<'a>>
    ensures { option_map line_of result ≡ new_program (rows_of (found_of entries.now)) }
{
    let database = text(entries, "db")?;
    Some(Program::New { database })
}

// Copies the list of words, because the matches behind `entries` are dropped before the subcommand is carried out.
fn do_program<'a>(alloc: Global, entries: &ArgMatches<'a>) -> Result<Program<'a>, WordFault>
    ensures { UnderstandsAs line_of (do_program (rows_of (found_of entries.now))) result }
{
    let database = text(entries, "db").ok_or(WordFault::NotUnderstood)?;
    let words = texts(entries, "word").ok_or(WordFault::NotUnderstood)?;
    let words = words.to_vec(alloc)?;
    Ok(Program::Do { database, words })
}

fn lines_program<'a>(entries: &ArgMatches<'a>) -> Option<Program<'a>>
    ensures { option_map line_of result ≡ lines_program (rows_of (found_of entries.now)) }
{
    let database = text(entries, "db")?;
    Some(Program::Lines { database })
}

fn words_program<'a>(entries: &ArgMatches<'a>) -> Option<Program<'a>>
    ensures { option_map line_of result ≡ words_program (rows_of (found_of entries.now)) }
{
    let seed = parse_seed(text(entries, "seed")?)?;
    let count = number(entries, "count", 0, WORDS_LIMIT)?;
    Some(Program::Words { seed, count })
}

// Allocates only for the label, which is an owned text.
fn import_program<'a>(alloc: Global, entries: &ArgMatches<'a>) -> Result<Program<'a>, WordFault>
    ensures { UnderstandsAs line_of (import_program (rows_of (found_of entries.now))) result }
{
    let database = text(entries, "db").ok_or(WordFault::NotUnderstood)?;
    let list = text(entries, "path").ok_or(WordFault::NotUnderstood)?;
    let kind = list_kind_given(entries).ok_or(WordFault::NotUnderstood)?;
    let label = label_given(alloc, entries)?;
    Ok(Program::Import {
        database,
        kind,
        label,
        list,
    })
}

fn list_kind_given(entries: &ArgMatches) -> Option<ListKind>
    ensures { result ≡ list_kind_given (rows_of (found_of entries.now)) }
{
    ListKind::named(text(entries, "kind")?)
}

fn label_given(alloc: Global, entries: &ArgMatches) -> Result<Label, WordFault>
    ensures { Understands (label_given (rows_of (found_of entries.now))) result }
{
    let label = text(entries, "label").ok_or(WordFault::NotUnderstood)?;
    match Label::read(alloc, label) {
        Ok(label) => Ok(label),
        Err(TypeFault::OutOfMemory) => Err(WordFault::OutOfMemory),
        Err(_) => Err(WordFault::NotUnderstood),
    }
}

fn export_program<'a>(entries: &ArgMatches<'a>) -> Option<Program<'a>>
    ensures { option_map line_of result ≡ export_program (rows_of (found_of entries.now)) }
{
    let database = text(entries, "db")?;
    let kind = export_kind_named(text(entries, "kind")?)?;
    Some(Program::Export { database, kind })
}

// Returns the kind of export with this name.
fn export_kind_named(name: &str) -> Option<ExportKind>
    ensures { result ≡ export_kind_named name.now }
{
    match name {
        "rooms" => Some(ExportKind::Rooms),
        "people" => Some(ExportKind::People),
        "moves" => Some(ExportKind::Moves),
        "grades" => Some(ExportKind::Grades),
        _ => None,
    }
}

fn serve_program<'a>(entries: &ArgMatches<'a>) -> Option<Program<'a>>
    ensures { option_map line_of result ≡ serve_program (rows_of (found_of entries.now)) }
{
    let database = text(entries, "db")?;
    let port = number(entries, "port", 1, PORT_LIMIT)?;
    let count = number(entries, "count", 1, CONNECTION_COUNT_LIMIT)?;
    Some(Program::Serve {
        database,
        port: port as u16,
        count,
    })
}

fn migrate_program<'a>(entries: &ArgMatches<'a>) -> Option<Program<'a>>
    ensures { option_map line_of result ≡ migrate_program (rows_of (found_of entries.now)) }
{
    let database = text(entries, "db")?;
    Some(Program::Migrate { database })
}

// Returns the text given for the argument with this id.
fn text<'a>(entries: &ArgMatches<'a>, id: &str) -> Option<&'a str>
    ensures { option_map (λ given. given.now) result ≡ first_of id.now
        (rows_of (found_of entries.now)) }
{
    entries.get_str(id)
}

// Returns the texts given for the argument with this id.
fn texts<'m, 'a>(entries: &'m ArgMatches<'a>, id: &str) -> Option<&'m [&'a str]>
    ensures { option_map (λ given. map (λ word. word.now) given.now) result
        ≡ all_of id.now (rows_of (found_of entries.now)) }
{
    entries.get_strs(id)
}

// Returns the number given for the argument with this id, if it is from `least` to `most`.
fn number(entries: &ArgMatches, id: &str, least: u32, most: u32) -> Option<u32>
    ensures given { result ≡ number_of least most id.now (rows_of (found_of entries.now)) }
    ensures within { IfSome result (λ n. n ≤ most) }
{
    match entries.get_one::<u32>(id) {
        Some(n) => {
            if n < least {
                return None;
            }
            if n > most { None } else { Some(n) }
        }
        None => None,
    }
}

// Returns `OutOfMemory` if `clap` reports it, and `NotUnderstood` for any other error.
fn fault_of(error: &Error) -> WordFault
    ensures misread { result ≡ WordFault.NotUnderstood → kind_of error.now ≢ ErrorKind.OutOfMemory }
    ensures refused { result ≡ WordFault.OutOfMemory → kind_of error.now ≡ ErrorKind.OutOfMemory }
{
    match error.kind() {
        ErrorKind::OutOfMemory => WordFault::OutOfMemory,
        _ => WordFault::NotUnderstood,
    }
}
