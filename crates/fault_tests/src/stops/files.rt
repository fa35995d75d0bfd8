//! Two files in memory, one of which may stop working.
use sqlite::Files;
use sqlite_disk::{Crash, Disk, Fuse, Memory};
use std::alloc::Global;

/// A file that stops working after a given number of calls.
pub type StoppingFile = Fuse<Memory>;

// The number of bytes that a device writes as a unit.
const SECTOR: usize = 512;

/// The bytes of a log and of its database file.
#[derive(Drop)]
pub struct Held {
    pub log: Vec<u8>,
    pub database: Vec<u8>,
}

/// The number of calls after which the log and the database file stop.
#[derive(Clone, Copy, Drop)]
pub struct Calls {
    pub log: u64,
    pub database: u64,
}

impl Calls {
    /// More calls than a test makes, so that neither file stops.
    pub const ALL: Calls = Calls {
        log: u64::MAX,
        database: u64::MAX,
    };
}

/// Returns two files that hold these bytes and stop after these numbers of calls.
pub fn files_of(
    alloc: Global,
    log: &[u8],
    database: &[u8],
    calls: Calls,
) -> Option<Files<StoppingFile>> {
    let log = file_of(alloc, log, calls.log)?;
    let db = file_of(alloc, database, calls.database)?;
    Some(Files { log, db })
}

fn file_of(alloc: Global, bytes: &[u8], calls: u64) -> Option<StoppingFile> {
    let mut memory = Memory::new(alloc);
    memory.write_at(0, bytes).ok()?;
    memory.sync().ok()?;
    Some(Fuse::new(memory, calls))
}

/// Whether the file still works.
pub fn is_working(file: &mut StoppingFile) -> bool {
    file.may_be_used() && file.len().is_ok()
}

/// Returns the contents that a file may have after a crash. The first has all bytes as written. If some written
/// bytes are not synced, a second has only the synced bytes. A third then has the written bytes in every second
/// sector, and the synced bytes in the other sectors.
pub fn contents_left(alloc: Global, mut file: StoppingFile) -> Option<Vec<Vec<u8>>> {
    let written = Vec::from_slice(alloc, file.inner().bytes()).ok()?;
    file.crash();
    let synced = Vec::from_slice(alloc, file.inner().bytes()).ok()?;
    if synced.as_slice() == written.as_slice() {
        return one_content(alloc, written);
    }
    let torn = torn(alloc, written.as_slice(), synced.as_slice())?;
    vec![in alloc; written, synced, torn].ok()
}

fn one_content(alloc: Global, content: Vec<u8>) -> Option<Vec<Vec<u8>>> {
    vec![in alloc; content].ok()
}

// Returns the written bytes in every second sector. In the other sectors returns the synced bytes, or zeros past the
// end of these.
fn torn(alloc: Global, written: &[u8], synced: &[u8]) -> Option<Vec<u8>> {
    let mut torn = Vec::new(alloc);
    for (at, byte) in written.iter().enumerate() {
        let before = synced.get(at).copied().unwrap_or(0);
        let is_new = (at / SECTOR) % 2 == 0;
        torn.push(if is_new { *byte } else { before }).ok()?;
    }
    Some(torn)
}
