//! Carries out the program's arguments with standard input, output and error. The subcommand works on an office file,
//! rehearses at a desk in memory, or prints the words of a draw.
ghost use Rattle.std.specs.Prelude.{◌≤◌, map};
ghost use Rattle.sqlite.specs.Held.{state};
ghost use Rattle.sqlite.specs.State.{HasCleanDisk};
ghost use Rattle.sqlite.specs.Steps.{over_memory};
ghost use Rattle.office_state.specs.declared.office.Office.{Office as AnyOffice};
ghost use Rattle.office_schema.specs.tables.Steps.{Follows};
ghost use Rattle.office_store.specs.Desk.{Shows, Represents};
ghost use Rattle.office_store.specs.Handling.{HandlesAt};
ghost use Rattle.office_store.specs.LawfulSteps.{HandlesLawfully};
ghost use Rattle.office_lines.specs.Rehearsals.{Rehearses};
ghost use Rattle.room_types.specs.Watched.{IsFresh, StopsAtEnd, StopsAtFailure, watched_reads};
ghost use Rattle.room_types.specs.Streams.{input_of, output_of};
ghost use Rattle.office_cli.specs.Doing.{CarriesOut, RehearsesAnew, Refuses};
ghost use Rattle.office_file.specs.Access.{file_access};
ghost use Rattle.office_cli.specs.ListAccess.{list_access_of};
ghost use Rattle.resident_http.specs.server.Network.{network_of};
ghost use Rattle.office_lines.specs.Lines.{read_limit};

use crate::arguments::program;
use crate::in_file::{Action, make_in_file, migrate_in_file, with_office};
use crate::lists::{Lists, SystemLists};
use crate::usage::Program;
use crate::word_lines::words_text;
use office_file::{Closes, Files, SystemFiles};
use office_lines::Rehearsed;
use office_lines::parse::WordFault;
use office_lines::rehearse::rehearse as rehearse_with;
use office_store::Desk;
use resident_http::server::{Listener, Loopback, Ports};
use room_types::printing::{ACCEPTED, NOT_UNDERSTOOD, print, print_unavailable};
use room_types::{Source, Stream, Watched};
use sqlite::{Alter, Connection, FileFrom, FileStore, MemStore, Start, Wary};
use sqlite_trees::store::Store;
use std::alloc::Global;
use std::fs::File;
use std::io::{Read, Write};
use std::net::{TcpListener, TcpStream};

/// What the contracts of `carry_out` and `carry_out_over` say of the files, the lists and the ports of the system. `Self`
/// stands for what the office's file and its log contain when they are opened.
pub trait OverSystem {
    ghost use Rattle.std.specs.Prelude.{List, ℕ};
    ghost use Rattle.room_types.specs.Streams.{Input, Output};
    ghost use Rattle.room_types.specs.Texts.{Text};

    /// The program carries out these words and returns this exit status. No contract can name the states of the
    /// system's files, lists and ports, so the relation holds for some of them.
    ghost carries_out: { List Text → ℕ → Input → Input → Output → Output → Output → Output → Type 0 };
}

impl<S: Start> OverSystem for S {
    ghost carries_out = { λ words status input input' out out' error error'.
        let access = file_access ⟦<FileStore<FileFrom<S>> as Store>⟧
        ⟦<SystemFiles<'static, S> as Files<FileStore<FileFrom<S>>>>⟧.opens
        ⟦<SystemFiles<'static, S> as Files<FileStore<FileFrom<S>>>>⟧.finds
        ⟦<SystemFiles<'static, S> as Files<FileStore<FileFrom<S>>>>⟧.fails
        ⟦<SystemFiles<'static, S> as Closes<Connection<FileStore<FileFrom<S>>>>>⟧.closes in
        let list_access = list_access_of
        ⟦<SystemLists<'static> as Lists>⟧.opens ⟦<SystemLists<'static> as Lists>⟧.fails
        ⟦<SystemLists<'static> as Lists>⟧.closes ⟦<File as Source>⟧.reads ⟦<File as Read>⟧.remaining in
        let network = network_of
        ⟦<TcpStream as Stream>⟧.reads ⟦<TcpStream as Stream>⟧.writes ⟦<TcpStream as Stream>⟧.flushes
        ⟦<TcpStream as Read>⟧.remaining ⟦<TcpStream as Write>⟧.contents
        ⟦<TcpListener as Listener>⟧.accepts ⟦<TcpListener as Listener>⟧.closes
        ⟦<Loopback<'static> as Ports>⟧.listens ⟦<Loopback<'static> as Ports>⟧.fails
        ⟦<Loopback<'static> as Ports>⟧.stops in
        (files : _) × (files' : _) × (lists : _) × (lists' : _) × (ports : _) × (ports' : _)
        × CarriesOut access list_access network words files lists ports status files' lists' ports'
        input input' out out' error error' };
}

/// Carries out these words, the arguments after the program's name, and returns the exit status.
pub fn carry_out<'a, R: Read, W: Write, E: Write>(
    rt: &HostRuntime,
    words: &'a [&'a str],
    input: &mut Watched<R>,
    output: &mut Watched<W>,
    error: &mut Watched<E>,
) -> u8
    requires fresh_input { IsFresh input.old }
    requires fresh_output { IsFresh output.old }
    requires fresh_error { IsFresh error.old }
    ensures few { watched_reads input.new ≤ read_limit }
    ensures no_wasted_read { StopsAtEnd input.old input.new }
    ensures no_wasted_write { StopsAtFailure output.old output.new }
    ensures no_wasted_error { StopsAtFailure error.old error.new }
    ensures carries_out { ⟦<Wary as OverSystem>⟧.carries_out
        (map (λ word. word.now) words.entry.now) result
        (input_of R.remaining input.old) (input_of R.remaining input.new)
        (output_of W.contents output.old) (output_of W.contents output.new)
        (output_of E.contents error.old) (output_of E.contents error.new) }
{
    carry_out_over(rt, words, Wary, input, output, error)
}

/// Carries out these words, the arguments after the program's name, with the system's files, lists and ports, and
/// returns the exit status. `start` stands for what the office's file and its log contain when they are opened. The
/// contract holds for every type `S` of `start`, and so for any contents.
pub fn carry_out_over<'a, S: Start, R: Read, W: Write, E: Write>(
    rt: &HostRuntime,
    words: &'a [&'a str],
    start: S,
    input: &mut Watched<R>,
    output: &mut Watched<W>,
    error: &mut Watched<E>,
) -> u8
    requires fresh_input { IsFresh input.old }
    requires fresh_output { IsFresh output.old }
    requires fresh_error { IsFresh error.old }
    ensures few { watched_reads input.new ≤ read_limit }
    ensures no_wasted_read { StopsAtEnd input.old input.new }
    ensures no_wasted_write { StopsAtFailure output.old output.new }
    ensures no_wasted_error { StopsAtFailure error.old error.new }
    ensures carries_out { ⟦<S as OverSystem>⟧.carries_out
        (map (λ word. word.now) words.entry.now) result
        (input_of R.remaining input.old) (input_of R.remaining input.new)
        (output_of W.contents output.old) (output_of W.contents output.new)
        (output_of E.contents error.old) (output_of E.contents error.new) }
{
    let mut files = SystemFiles::new(rt, start);
    let mut lists = SystemLists::new(rt);
    let mut ports = Loopback::new(rt);
    carry_out_from(
        rt.alloc(),
        words,
        &mut files,
        &mut lists,
        &mut ports,
        input,
        output,
        error,
    )
}

/// Carries out these words, the arguments after the program's name, with any office files, lists and ports, and
/// returns the exit status. A subcommand on an office file opens the file once. If the file opens, the subcommand
/// closes it in the state in which its work left it, with no transaction open. Only `import` opens a
/// list, and opens it once. If the list opens, `import` closes it in the state in which the last read left it.
pub fn carry_out_from<
    'a,
    B: Alter,
    F: Files<B> + Closes<Connection<B>>,
    L: Lists,
    P: Ports,
    R: Read,
    W: Write,
    E: Write,
>(
    alloc: Global,
    words: &'a [&'a str],
    files: &mut F,
    lists: &mut L,
    ports: &mut P,
    input: &mut Watched<R>,
    output: &mut Watched<W>,
    error: &mut Watched<E>,
) -> u8
    requires fresh_input { IsFresh input.old }
    requires fresh_output { IsFresh output.old }
    requires fresh_error { IsFresh error.old }
    ensures few { watched_reads input.new ≤ read_limit }
    ensures no_wasted_read { StopsAtEnd input.old input.new }
    ensures no_wasted_write { StopsAtFailure output.old output.new }
    ensures no_wasted_error { StopsAtFailure error.old error.new }
    ensures carries_out { let list_access = list_access_of
        L.opens L.fails L.closes L.List.reads L.List.remaining in
        let access = file_access B.Store F.opens F.finds F.fails F.closes in
        let network = network_of
        P.Socket.Stream.reads P.Socket.Stream.writes P.Socket.Stream.flushes
        P.Socket.Stream.remaining P.Socket.Stream.contents
        P.Socket.accepts P.Socket.closes P.listens P.fails P.stops in
        CarriesOut access list_access network
        (map (λ word. word.now) words.entry.now)
        files.old lists.old ports.old result files.new lists.new ports.new
        (input_of R.remaining input.old) (input_of R.remaining input.new)
        (output_of W.contents output.old) (output_of W.contents output.new)
        (output_of E.contents error.old) (output_of E.contents error.new) }
{
    let program = match program(alloc, words) {
        Ok(program) => program,
        Err(fault) => return refuse(fault, output, error),
    };
    match program {
        Program::New { database } => make_in_file(alloc, files, database, output),
        Program::Migrate { database } => migrate_in_file(alloc, files, database, output),
        Program::Do { database, words } => {
            let line = Action::Line(words);
            with_office(alloc, files, database, line, lists, ports, input, output)
        }
        Program::Lines { database } => {
            let lines = Action::Lines;
            with_office(alloc, files, database, lines, lists, ports, input, output)
        }
        Program::Import {
            database,
            kind,
            label,
            list,
        } => {
            let import = Action::Import { kind, label, list };
            with_office(alloc, files, database, import, lists, ports, input, output)
        }
        Program::Export { database, kind } => {
            let export = Action::Export(kind);
            with_office(alloc, files, database, export, lists, ports, input, output)
        }
        Program::Serve {
            database,
            port,
            count,
        } => {
            let serve = Action::Serve { port, count };
            with_office(alloc, files, database, serve, lists, ports, input, output)
        }
        Program::Rehearse => rehearse_anew(alloc, input, output),
        Program::Words { seed, count } => match words_text(alloc, seed, count as usize) {
            Ok(text) => print(output, text.as_str(), ACCEPTED),
            Err(_) => refuse(WordFault::OutOfMemory, output, error),
        },
    }
}

// Rehearses at a new desk in memory. If an allocation for the desk fails, prints `unavailable`. Returns the exit
// status.
fn rehearse_anew<R: Read, W: Write>(
    alloc: Global,
    input: &mut Watched<R>,
    output: &mut Watched<W>,
) -> u8
    requires fresh_input { IsFresh input.old }
    requires fresh_output { IsFresh output.old }
    ensures few { watched_reads input.new ≤ read_limit }
    ensures no_wasted_read { StopsAtEnd input.old input.new }
    ensures no_wasted_write { StopsAtFailure output.old output.new }
    ensures rehearses { RehearsesAnew result
        (input_of R.remaining input.old) (input_of R.remaining input.new)
        (output_of W.contents output.old) (output_of W.contents output.new) }
{
    match Desk::in_memory(alloc) {
        Ok(mut desk) => rehearse_in_memory(alloc, &mut desk, input, output).status,
        Err(_) => print_unavailable(output),
    }
}

/// Handles each line of the input at the desk and writes the responses, like `rehearse` of `office_lines`. Returns
/// how the rehearsal ended, and the exit status. If the disk returned what was written to it, the responses are those
/// of the office that the desk represents. In this case the desk afterwards represents the office after the handled
/// lines, however the rehearsal ended.
pub fn rehearse<S: Alter, R: Read, W: Write>(
    alloc: Global,
    desk: &mut Desk<S>,
    input: &mut Watched<R>,
    output: &mut Watched<W>,
) -> Rehearsed
    requires fresh_input { IsFresh input.old }
    requires fresh_output { IsFresh output.old }
    ensures few { watched_reads input.new ≤ read_limit }
    ensures no_wasted_read { StopsAtEnd input.old input.new }
    ensures no_wasted_write { StopsAtFailure output.old output.new }
    ensures follows { Follows (state S.Store desk.old.conn) (state S.Store desk.new.conn) }
    ensures rehearses { Rehearses (HandlesAt S.Store) result.ending result.status desk.old desk.new
        (input_of R.remaining input.old) (input_of R.remaining input.new)
        (output_of W.contents output.old) (output_of W.contents output.new) }
    ensures lawful { HasCleanDisk (state S.Store desk.new.conn) → (office : AnyOffice)
        → Represents S.Store desk.old office → (next : AnyOffice)
        × Rehearses HandlesLawfully result.ending result.status office next
        (input_of R.remaining input.old) (input_of R.remaining input.new)
        (output_of W.contents output.old) (output_of W.contents output.new)
        × Represents S.Store desk.new next }
{
    rehearse_with(alloc, desk, input, output)
}

/// Handles each line of the input at a desk over a database in memory, and writes the responses. Returns how the
/// rehearsal ended, and the exit status. The responses are those of the office that the desk shows.
/// Afterwards the desk shows the office after the handled lines. Unlike in `rehearse`, this needs no premise about
/// a disk, because the database is in memory.
pub fn rehearse_in_memory<R: Read, W: Write>(
    alloc: Global,
    desk: &mut Desk<MemStore>,
    input: &mut Watched<R>,
    output: &mut Watched<W>,
) -> Rehearsed
    requires fresh_input { IsFresh input.old }
    requires fresh_output { IsFresh output.old }
    ensures few { watched_reads input.new ≤ read_limit }
    ensures no_wasted_read { StopsAtEnd input.old input.new }
    ensures no_wasted_write { StopsAtFailure output.old output.new }
    ensures rehearses { Rehearses (HandlesAt over_memory) result.ending result.status desk.old
        desk.new (input_of R.remaining input.old) (input_of R.remaining input.new)
        (output_of W.contents output.old) (output_of W.contents output.new) }
    ensures lawful { (office : AnyOffice) → Shows over_memory desk.old office
        → (next : AnyOffice)
        × Rehearses HandlesLawfully result.ending result.status office next
        (input_of R.remaining input.old) (input_of R.remaining input.new)
        (output_of W.contents output.old) (output_of W.contents output.new)
        × Shows over_memory desk.new next }
{
    rehearse_with(alloc, desk, input, output)
}

/// Reports on standard error that the arguments were not understood, or on standard output that an allocation failed.
/// Returns the exit status.
pub fn refuse<W: Write, E: Write>(
    fault: WordFault,
    output: &mut Watched<W>,
    error: &mut Watched<E>,
) -> u8
    requires fresh_output { IsFresh output.old }
    requires fresh_error { IsFresh error.old }
    ensures no_wasted_write { StopsAtFailure output.old output.new }
    ensures no_wasted_error { StopsAtFailure error.old error.new }
    ensures refuses { Refuses fault result
        (output_of W.contents output.old) (output_of W.contents output.new)
        (output_of E.contents error.old) (output_of E.contents error.new) }
{
    match fault {
        WordFault::NotUnderstood => print(error, "rooms: not understood\n", NOT_UNDERSTOOD),
        WordFault::OutOfMemory => print_unavailable(output),
    }
}
