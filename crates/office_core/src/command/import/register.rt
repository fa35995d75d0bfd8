//! A register of people, with a table of their keys and a table of the tenants of rooms. A lookup in a table replaces
//! a scan of the people.
ghost use Rattle.std.specs.Prelude.{◌≡◌, false, IfOk, OnOk};
ghost use Rattle.std.specs.FinMap as map;
ghost use Rattle.office_core.specs.Inner.Tries.{HasKeys, IsIndexed, placed};

use office_lists::PersonEntry;
use office_state::{Office, Person};
use room_types::grammars::{Keys, PersonIds, RoomCodes};
use room_types::rows::copy_optional;
use room_types::{OutOfMemory, PersonId, RoomCode, Table};
use std::alloc::Global;

/// People, indexed by key and by home.
#[derive(Drop)]
pub(crate) struct Register {
    pub(crate) people: Table<PersonIds, Person>,
    /// The keys of the people.
    pub(crate) keys: Table<Keys, ()>,
    /// Maps each room that is somebody's home to its tenant.
    pub(crate) tenants: Table<RoomCodes, PersonId>,
}

impl Register {
    /// Makes a register of the office's people. Scans the people once for each table.
    pub(crate) fn of(alloc: Global, office: &Office) -> Result<Register, OutOfMemory>
        ensures people { IfOk result (λ register. register.people ≡ office.now.people) }
        ensures indexed { IfOk result IsIndexed }
    {
        Ok(Register {
            people: office.people.copy()?,
            keys: keys(alloc, &office.people)?,
            tenants: office.tenants(alloc)?,
        })
    }

    /// Adds a person whose identifier is not yet in the register.
    #[tactic(auto, using(crate::proofs::imports::Indexed::still_indexed))]
    pub(crate) fn add(&mut self, entry: &PersonEntry) -> Result<(), OutOfMemory>
        requires unknown { map.contains_key self.old.people entry.now.person ≡ false }
        requires indexed { IsIndexed self.old }
        ensures people { OnOk result
            (self.new.people ≡ map.insert self.old.people entry.now.person
            (record { name = entry.now.name; key = entry.now.key; home = entry.now.home })) }
        ensures indexed { OnOk result (IsIndexed self.new) }
    {
        self.keys.insert(entry.key.copy()?, ())?;
        place_in_register(&mut self.tenants, &entry.home, &entry.person)?;
        let kept = Person {
            name: entry.name.copy()?,
            key: entry.key.copy()?,
            home: copy_optional(&entry.home)?,
        };
        self.people.insert(entry.person.copy()?, kept)?;
        Ok(())
    }
}

// Records that the person lives in the room, if there is one.
fn place_in_register(
    tenants: &mut Table<RoomCodes, PersonId>,
    home: &Option<RoomCode>,
    person: &PersonId,
) -> Result<(), OutOfMemory>
    ensures { OnOk result (tenants.new ≡ placed tenants.old home.now person.now) }
{
    match home {
        Some(room) => tenants.insert(room.copy()?, person.copy()?),
        None => Ok(()),
    }
}

// Returns a table of the people's keys.
fn keys(alloc: Global, people: &Table<PersonIds, Person>) -> Result<Table<Keys, ()>, OutOfMemory>
    ensures { IfOk result (HasKeys people.now) }
{
    let mut keys = Table::new(alloc);
    for (_, person) in people.iter() {
        keys.insert(person.key.copy()?, ())?;
    }
    Ok(keys)
}
