//! An imported list, as stored.
ghost use Rattle.std.specs.Prelude.{◌≡◌, ◌<◌, IfOk, OnErr, length};

use room_types::{ExactClone, ListKind, Listing};
use std::alloc::AllocError;

/// A list that was imported under a label. The office stores it to recognize when the same import is repeated. `Blank`
/// replaces its bytes.
#[derive(Drop)]
pub struct StoredImport {
    pub kind: ListKind,
    /// The bytes that were imported, or those that have replaced them.
    pub bytes: Listing<u8>,
    /// The number of records that the import added.
    pub count: u16,
}

impl Clone for StoredImport {
    ghost is_clone = { λ x y. y ≡ x };

    fn clone(&self) -> Result<StoredImport, AllocError>
        ensures copy { IfOk result (λ copy. copy ≡ self.now) }
        ensures memory { OnErr result (0 < length self.now.bytes) }
    {
        match self.bytes.copy() {
            Ok(bytes) => Ok(StoredImport {
                kind: self.kind,
                bytes,
                count: self.count,
            }),
            Err(_) => Err(AllocError),
        }
    }
}

impl ExactClone for StoredImport {
    ghost same = { λ x y h. h };
}
