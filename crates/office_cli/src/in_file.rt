//! Carries out a subcommand on an office file: makes or migrates the office, or performs an action at its desk.
ghost use Rattle.std.specs.Prelude.{◌≤◌};
ghost use Rattle.room_types.specs.Streams.{input_of, output_of};
ghost use Rattle.room_types.specs.Watched.{IsFresh, StopsAtEnd, StopsAtFailure, watched_reads};
ghost use Rattle.office_file.specs.Access.{file_access};
ghost use Rattle.office_cli.specs.Actions.{action_of};
ghost use Rattle.office_cli.specs.AtDesk.{Performs};
ghost use Rattle.office_cli.specs.InFile.{MakesInFile, MigratesInFile, PerformsInFile};
ghost use Rattle.office_cli.specs.ListAccess.{list_access_of};
ghost use Rattle.office_lines.specs.Lines.{read_limit};
ghost use Rattle.resident_http.specs.server.Network.{network_of};

use crate::desk_faults::{print_made, refuse_desk};
use crate::exporting::export_at;
use crate::importing::import_at;
use crate::lists::Lists;
use office_file::{Closes, Files, close, create_in, find_in, migrate_in};
use office_lines::do_line::do_words;
use office_lines::rehearse::rehearse;
use office_lists::ExportKind;
use office_store::Desk;
use resident_http::server::{Ports, serve_port};
use room_types::{Label, ListKind, Watched};
use sqlite::{Alter, Connection};
use std::alloc::Global;
use std::io::{Read, Write};

/// Makes an empty office in the file at this path, and prints `ok`. If that fails, prints the reason. Returns the
/// exit status. Opens the file once. If the file opens, closes it with no transaction open.
pub fn make_in_file<B: Alter, F: Files<B> + Closes<Connection<B>>, W: Write>(
    alloc: Global,
    files: &mut F,
    path: &str,
    output: &mut Watched<W>,
) -> u8
    requires fresh_output { IsFresh output.old }
    ensures no_wasted_write { StopsAtFailure output.old output.new }
    ensures makes { let access = file_access B.Store F.opens F.finds F.fails F.closes in
        MakesInFile access files.old path.now result files.new
        (output_of W.contents output.old) (output_of W.contents output.new) }
{
    let made = create_in(alloc, files, path);
    let status = print_made(alloc, &made, output);
    close(files, made);
    status
}

/// Migrates the tables of the office in the file at this path from an earlier version to this program's, and prints
/// `ok`. If that fails, prints the reason. Returns the exit status. Opens the file once. If the file opens, closes it
/// with no transaction open.
pub fn migrate_in_file<B: Alter, F: Files<B> + Closes<Connection<B>>, W: Write>(
    alloc: Global,
    files: &mut F,
    path: &str,
    output: &mut Watched<W>,
) -> u8
    requires fresh_output { IsFresh output.old }
    ensures no_wasted_write { StopsAtFailure output.old output.new }
    ensures migrates { let access = file_access B.Store F.opens F.finds F.fails F.closes in
        MigratesInFile access files.old path.now result files.new
        (output_of W.contents output.old) (output_of W.contents output.new) }
{
    let migrated = migrate_in(alloc, files, path);
    let status = print_made(alloc, &migrated, output);
    close(files, migrated);
    status
}

/// Performs the action at the desk of the office in the file at this path. If the file gives no desk, prints the
/// reason, opens no list, listens on no port and reads no input. Returns the exit status. Opens the file once. If the
/// file opens, closes it in the state in which the action left it, with no transaction open.
pub fn with_office<
    B: Alter,
    F: Files<B> + Closes<Connection<B>>,
    L: Lists,
    P: Ports,
    R: Read,
    W: Write,
>(
    alloc: Global,
    files: &mut F,
    path: &str,
    action: Action,
    lists: &mut L,
    ports: &mut P,
    input: &mut Watched<R>,
    output: &mut Watched<W>,
) -> u8
    requires fresh_input { IsFresh input.old }
    requires fresh_output { IsFresh output.old }
    ensures few { watched_reads input.new ≤ read_limit }
    ensures no_wasted_read { StopsAtEnd input.old input.new }
    ensures no_wasted_write { StopsAtFailure output.old output.new }
    ensures performs { let access = file_access B.Store F.opens F.finds F.fails F.closes in
        let list_access = list_access_of L.opens L.fails L.closes L.List.reads L.List.remaining in
        let network = network_of
        P.Socket.Stream.reads P.Socket.Stream.writes P.Socket.Stream.flushes
        P.Socket.Stream.remaining P.Socket.Stream.contents
        P.Socket.accepts P.Socket.closes P.listens P.fails P.stops in
        PerformsInFile access list_access network files.old path.now (action_of action.entry) lists.old ports.old
        result files.new lists.new ports.new
        (input_of R.remaining input.old) (input_of R.remaining input.new)
        (output_of W.contents output.old) (output_of W.contents output.new) }
{
    match find_in(alloc, files, path) {
        Ok(mut desk) => {
            let status = perform(alloc, &mut desk, action, lists, ports, input, output);
            close(files, Ok(desk));
            status
        }
        Err(fault) => refuse_desk(alloc, fault, output),
    }
}

/// An action at the desk of an office file.
#[derive(Drop)]
pub enum Action<'a> {
    /// Handles these words, one or more, as a line.
    Line(Vec<&'a str>),
    /// Handles the lines of the input, as a rehearsal does.
    Lines,
    /// Imports the list in the file `list` under this label.
    Import {
        kind: ListKind,
        label: Label,
        list: &'a str,
    },
    /// Exports the office as CSV.
    Export(ExportKind),
    /// Serves `count` connections of residents on this port.
    Serve {
        port: u16,
        count: u32,
    },
}

/// Performs the action at this desk. Returns the exit status. Only an import opens a list, only serving listens on a
/// port, and only the lines of the input read it.
pub fn perform<S: Alter, L: Lists, P: Ports, R: Read, W: Write>(
    alloc: Global,
    desk: &mut Desk<S>,
    action: Action,
    lists: &mut L,
    ports: &mut P,
    input: &mut Watched<R>,
    output: &mut Watched<W>,
) -> u8
    requires fresh_input { IsFresh input.old }
    requires fresh_output { IsFresh output.old }
    ensures few { watched_reads input.new ≤ read_limit }
    ensures no_wasted_read { StopsAtEnd input.old input.new }
    ensures no_wasted_write { StopsAtFailure output.old output.new }
    ensures performs { let list_access = list_access_of
        L.opens L.fails L.closes L.List.reads L.List.remaining in
        let network = network_of
        P.Socket.Stream.reads P.Socket.Stream.writes P.Socket.Stream.flushes
        P.Socket.Stream.remaining P.Socket.Stream.contents
        P.Socket.accepts P.Socket.closes P.listens P.fails P.stops in
        Performs S.Store list_access network (action_of action.entry) lists.old ports.old desk.old result
        lists.new ports.new desk.new
        (input_of R.remaining input.old) (input_of R.remaining input.new)
        (output_of W.contents output.old) (output_of W.contents output.new) }
{
    match action {
        Action::Line(words) => do_words(alloc, desk, &words, output),
        Action::Lines => rehearse(alloc, desk, input, output).status,
        Action::Import { kind, label, list } => {
            import_at(alloc, desk, lists, kind, label, list, output)
        }
        Action::Export(kind) => export_at(alloc, desk, kind, output),
        Action::Serve { port, count } => serve_port(alloc, desk, ports, port, count, output),
    }
}
