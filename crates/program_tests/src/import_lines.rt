//! Tests of the arguments of `rooms import`.
use crate::asserting::same_of;
use office_cli::{Program, WordFault, program};
use room_types::ListKind;
use std::alloc::Global;

// The option may be anywhere, and a path may be any text.
const LINES: [&[&str]; 4] = [
    &["import", "--db", "o", "people", "p-1", "a list"],
    &["import", "people", "--db=o", "p-1", "a list"],
    &["import", "people", "p-1", "a list", "--db", "o"],
    &["import", "--db", "o", "--", "people", "p-1", "a list"],
];

#[test]
fn parses_import_lines(rt: HostRuntime) {
    for words in LINES {
        same_of(&rt, words, &imports_people(rt.alloc(), words), &true);
    }
    let keys = ["import", "--db", "o", "keys", "p-1", "a"];
    same_of(&rt, &keys, &is_not_understood(rt.alloc(), &keys), &true);
}

// Whether the program takes these words as a request to import the people of `a list`, under the label `p-1`, into
// the office in `o`.
fn imports_people(alloc: Global, words: &[&str]) -> bool {
    match &program(alloc, words) {
        Ok(
            Program::Import {
                database,
                kind,
                label,
                list,
            },
        ) => {
            *database == "o"
                && *list == "a list"
                && *kind == ListKind::People
                && label.as_str() == "p-1"
        }
        _ => false,
    }
}

fn is_not_understood(alloc: Global, words: &[&str]) -> bool {
    matches!(program(alloc, words), Err(WordFault::NotUnderstood))
}
