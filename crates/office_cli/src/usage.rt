//! The subcommands of the program, as `clap` parses them.
ghost use Rattle.std.specs.Prelude.{◌≡◌, IfOk, false};
ghost use Rattle.clap.specs.Words.{app_of, rule_of};
ghost use Rattle.office_cli.specs.Usage.{IsCommand, do_usage, export_usage, import_usage, lines_usage, new_usage};
ghost use Rattle.office_cli.specs.Usage.{number as number_rule, operand as operand_rule, option as option_rule};
ghost use Rattle.office_cli.specs.Usage.{migrate_usage, plain_usage, serve_usage, usage, words_usage};
ghost use Rattle.office_cli.specs.Usage.{IsLocal, with_file_usages, with_line_usages, with_usage};

use crate::seeds::Seed;
use clap::{Arg, ArgAction, Command};
use office_lists::ExportKind;
use room_types::{Label, ListKind};
use std::alloc::{AllocError, Global};

/// A subcommand with its arguments.
#[derive(Debug, PartialEq, Eq, Drop)]
pub enum Program<'a> {
    /// Makes a new office in the file at this path.
    New {
        database: &'a str,
    },
    /// Lets the office in the file at this path handle these words, one or more, as a line.
    Do {
        database: &'a str,
        words: Vec<&'a str>,
    },
    /// Lets the office in the file at this path handle the lines of standard input.
    Lines {
        database: &'a str,
    },
    /// Lets an empty office handle the lines of standard input.
    Rehearse,
    /// Prints the first `count` words of the generator with this seed.
    Words {
        seed: Seed,
        count: u32,
    },
    /// Imports the list in the file `list` under this label into the office in the file `database`.
    Import {
        database: &'a str,
        kind: ListKind,
        label: Label,
        list: &'a str,
    },
    /// Exports the office in the file at this path as CSV.
    Export {
        database: &'a str,
        kind: ExportKind,
    },
    /// Serves `count` connections on this port of 127.0.0.1 with the office in the file at this path.
    Serve {
        database: &'a str,
        port: u16,
        count: u32,
    },
    /// Migrates the tables of the office in the file at this path from an earlier version to this program's.
    Migrate {
        database: &'a str,
    },
}

/// The greatest number of words that the subcommand `words` prints.
pub const WORDS_LIMIT: u32 = 2000;

/// The greatest port on which the subcommand `serve` listens.
pub const PORT_LIMIT: u32 = 65_535;

/// The greatest number of connections that the subcommand `serve` serves.
pub const CONNECTION_COUNT_LIMIT: u32 = 1_000_000;

/// Returns the command with which `clap` parses the program's arguments. Fails only if an allocation fails.
pub fn rooms_command<'a>(alloc: Global) -> Result<Command<'a>, AllocError>
    ensures { IfOk result (λ command. app_of command ≡ usage) }
{
    let lines = add_line_commands(alloc, plain_command(alloc))?;
    let files = add_file_commands(alloc, lines)?;
    with_command(files, migrate_command(alloc)?)
}

// Adds the subcommands `new`, `do`, `lines`, `rehearse` and `words`.
fn add_line_commands<'a>(alloc: Global, command: Command<'a>) -> Result<Command<'a>, AllocError>
    ensures { IfOk result (λ added. app_of added ≡ with_line_usages (app_of command.entry)) }
{
    let command = with_command(command, new_command(alloc)?)?;
    let command = with_command(command, do_command(alloc)?)?;
    let command = with_command(command, lines_command(alloc)?)?;
    let command = with_command(command, Command::new(alloc, "rehearse"))?;
    with_command(command, words_command(alloc)?)
}

// Adds the subcommands `import`, `export` and `serve`.
fn add_file_commands<'a>(alloc: Global, command: Command<'a>) -> Result<Command<'a>, AllocError>
    ensures { IfOk result (λ added. app_of added ≡ with_file_usages (app_of command.entry)) }
{
    let command = with_command(command, import_command(alloc)?)?;
    let command = with_command(command, export_command(alloc)?)?;
    with_command(command, serve_command(alloc)?)
}

// Adds one subcommand without global arguments.
fn with_command<'a>(command: Command<'a>, added: Command<'a>) -> Result<Command<'a>, AllocError>
    requires local { IsLocal added }
    ensures { IfOk result
        (λ whole. app_of whole ≡ with_usage (app_of command.entry) (app_of added.entry)) }
{
    command.subcommand(added)
}

// Returns the command `new --db FILE`.
fn new_command<'a>(alloc: Global) -> Result<Command<'a>, AllocError>
    ensures { IfOk result (IsCommand new_usage) }
{
    Command::new(alloc, "new").arg(option(alloc, "db"))
}

// Returns the command `do --db FILE WORD..`, with one or more words.
fn do_command<'a>(alloc: Global) -> Result<Command<'a>, AllocError>
    ensures { IfOk result (IsCommand do_usage) }
{
    let words = Arg::new(alloc, "word")
        .action(ArgAction::Append)
        .required(true);
    Command::new(alloc, "do")
        .arg(option(alloc, "db"))?
        .arg(words)
}

// Returns the command `lines --db FILE`.
fn lines_command<'a>(alloc: Global) -> Result<Command<'a>, AllocError>
    ensures { IfOk result (IsCommand lines_usage) }
{
    Command::new(alloc, "lines").arg(option(alloc, "db"))
}

// Returns the command `words --seed HEX --count N`.
fn words_command<'a>(alloc: Global) -> Result<Command<'a>, AllocError>
    ensures { IfOk result (IsCommand words_usage) }
{
    Command::new(alloc, "words")
        .arg(option(alloc, "seed"))?
        .arg(number(alloc, "count", 0, WORDS_LIMIT))
}

// Returns the command `import --db FILE KIND LABEL PATH`.
fn import_command<'a>(alloc: Global) -> Result<Command<'a>, AllocError>
    ensures { IfOk result (IsCommand import_usage) }
{
    Command::new(alloc, "import")
        .arg(option(alloc, "db"))?
        .arg(operand(alloc, "kind"))?
        .arg(operand(alloc, "label"))?
        .arg(operand(alloc, "path"))
}

// Returns the command `export --db FILE KIND`.
fn export_command<'a>(alloc: Global) -> Result<Command<'a>, AllocError>
    ensures { IfOk result (IsCommand export_usage) }
{
    Command::new(alloc, "export")
        .arg(option(alloc, "db"))?
        .arg(operand(alloc, "kind"))
}

// Returns one required positional argument.
fn operand<'a>(alloc: Global, name: &'a str) -> Arg<'a>
    ensures rule { rule_of result ≡ operand_rule name.entry.now }
    ensures local { result.global ≡ false }
{
    Arg::new(alloc, name).action(ArgAction::Set).required(true)
}

// Returns the command `serve --db FILE --port N --count K`.
fn serve_command<'a>(alloc: Global) -> Result<Command<'a>, AllocError>
    ensures { IfOk result (IsCommand serve_usage) }
{
    Command::new(alloc, "serve")
        .arg(option(alloc, "db"))?
        .arg(number(alloc, "port", 1, PORT_LIMIT))?
        .arg(number(alloc, "count", 1, CONNECTION_COUNT_LIMIT))
}

// Returns the command `migrate --db FILE`.
fn migrate_command<'a>(alloc: Global) -> Result<Command<'a>, AllocError>
    ensures { IfOk result (IsCommand migrate_usage) }
{
    Command::new(alloc, "migrate").arg(option(alloc, "db"))
}

// Returns the required option `--name VALUE`.
fn option<'a>(alloc: Global, name: &'a str) -> Arg<'a>
    ensures rule { rule_of result ≡ option_rule name.entry.now }
    ensures local { result.global ≡ false }
{
    Arg::new(alloc, name)
        .long(name)
        .action(ArgAction::Set)
        .required(true)
}

// Returns the required option `--name N`, where `N` is a number from `least` to `most`.
fn number<'a>(alloc: Global, name: &'a str, least: u32, most: u32) -> Arg<'a>
    ensures rule { rule_of result ≡ number_rule least most name.entry.now }
    ensures local { result.global ≡ false }
{
    let numbers = i64::from(least)..=i64::from(most);
    option(alloc, name).value_parser(clap::value_parser!(u32).range(numbers))
}

// Returns the command of the program without its subcommands. It requires one subcommand and offers no help.
fn plain_command<'a>(alloc: Global) -> Command<'a>
    ensures { IsCommand plain_usage result }
{
    Command::new(alloc, "rooms")
        .no_binary_name(true)
        .disable_help_flag(true)
        .disable_help_subcommand(true)
        .subcommand_required(true)
}
