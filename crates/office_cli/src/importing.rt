//! Imports a list: opens it, reads its bytes, passes them on as one command, and prints the answer.
ghost use Rattle.std.specs.Prelude.{◌≤◌, IfOk, OnErr};
ghost use Rattle.room_types.specs.Streams.{output_of};
ghost use Rattle.room_types.specs.Watched.{IsFresh, StopsAtEnd, StopsAtFailure, watched_reads};
ghost use Rattle.office_cli.specs.AtDesk.{ImportsDesk};
ghost use Rattle.office_cli.specs.Importing.{CannotRead, ImportsFrom, ReadsList, list_limit};
ghost use Rattle.office_cli.specs.ListAccess.{list_access_of};

use crate::lists::Lists;
use office_core::Command;
use office_lines::do_line::print_response;
use office_lines::limits::CHUNK_LIMIT;
use office_lines::render::Response;
use office_state::BYTE_LIMIT;
use office_store::{Desk, Handler, Request, Unavailable};
use room_types::printing::print_unavailable;
use room_types::{Label, ListKind, Listing, Source, Watched};
use sqlite::Alter;
use std::alloc::Global;
use std::io::{Read, Write};

/// The greatest number of bytes read from a list: one more than a list may have, to notice a longer list.
pub const LIST_LIMIT: usize = BYTE_LIMIT + 1;

/// Imports the list at the path `list` under this label, at this desk. Opens the list once. If the list opens, makes
/// no call on it but the reads of `read_bytes`, and closes it in the state in which the last read left it. If the list
/// cannot be opened or read, or an allocation for its bytes fails, prints `unavailable`. Returns the exit status.
pub fn import_at<S: Alter, L: Lists, W: Write>(
    alloc: Global,
    desk: &mut Desk<S>,
    lists: &mut L,
    kind: ListKind,
    label: Label,
    list: &str,
    output: &mut Watched<W>,
) -> u8
    requires fresh_output { IsFresh output.old }
    ensures no_wasted_write { StopsAtFailure output.old output.new }
    ensures imports { let list_access = list_access_of
        L.opens L.fails L.closes L.List.reads L.List.remaining in
        ImportsDesk S.Store list_access lists.old desk.old lists.new desk.new kind label list.now result
        (output_of W.contents output.old) (output_of W.contents output.new) }
{
    match lists.open(list) {
        Ok(mut source) => {
            let status = import_list(alloc, desk, kind, label, &mut source, output);
            lists.close(source);
            status
        }
        Err(Unavailable) => print_unavailable(output),
    }
}

/// Reads a list, lets the handler import it under this label, and prints the handler's answer. Returns the exit
/// status of the answer. Returns 3 if the output or an allocation for the answer's text fails; the command has been
/// handled even then. If the list cannot be read, or an allocation for its bytes fails, prints `unavailable`. Then
/// the handler gets no command.
pub fn import_list<H: Handler, R: Source, W: Write>(
    alloc: Global,
    handler: &mut H,
    kind: ListKind,
    label: Label,
    source: &mut Watched<R>,
    output: &mut Watched<W>,
) -> u8
    requires ready { H.is_ready handler.old }
    requires fresh_source { IsFresh source.old }
    requires fresh_output { IsFresh output.old }
    ensures few { watched_reads source.new ≤ list_limit }
    ensures no_wasted_read { StopsAtEnd source.old source.new }
    ensures no_wasted_write { StopsAtFailure output.old output.new }
    ensures imports { ImportsFrom H.handles R.reads R.remaining handler.old kind label source.old
        source.new result handler.new (output_of W.contents output.old) (output_of W.contents output.new) }
    ensures ready { H.is_ready handler.new }
{
    match read_bytes(alloc, source) {
        Ok(bytes) => {
            let bytes = Listing::new(bytes);
            let request = Request::Office(Command::Import { label, kind, bytes });
            let response = Response::Answered(handler.handle(alloc, &request));
            print_response(alloc, &response, output)
        }
        Err(Unavailable) => print_unavailable(output),
    }
}

/// Reads the bytes of a list up to its end, but at most `LIST_LIMIT` of them. Makes no call on the list but these
/// reads, and none after the first that fails.
///
/// # Errors
///
/// `Unavailable` if a read fails, or if an allocation for the bytes read fails.
pub fn read_bytes<R: Source>(alloc: Global, source: &mut Watched<R>) -> Result<Vec<u8>, Unavailable>
    requires fresh { IsFresh source.old }
    ensures reads { IfOk result (λ bytes.
        ReadsList R.reads R.remaining source.old source.new bytes.items) }
    ensures cannot_read { OnErr result (CannotRead R.reads R.remaining source.old source.new) }
    ensures few { watched_reads source.new ≤ list_limit }
    ensures no_wasted_read { StopsAtEnd source.old source.new }
{
    let mut bytes = Vec::new(alloc);
    let mut chunk = [0u8; CHUNK_LIMIT];
    'reads: while bytes.len() < LIST_LIMIT {
        let asked = CHUNK_LIMIT.min(LIST_LIMIT - bytes.len());
        match source.read(&mut chunk[..asked]) {
            Ok(0) => return Ok(bytes),
            Ok(n) => match bytes.extend_from_slice(&chunk[..n]) {
                Ok(()) => {}
                Err(_) => return Err(Unavailable),
            },
            Err(_) => return Err(Unavailable),
        }
    }
    Ok(bytes)
}
