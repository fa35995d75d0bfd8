//! The indexes of each order in which the tables of an office may have been created. The versions of an order have the
//! first of them.

// The name of an index, its tree, the tree of its table, and its columns.
pub(crate) type OwnIndex = (&'static str, u32, u32, &'static [usize]);

pub(super) const OWN: [OwnIndex; 13] = [
    ("sqlite_autoindex_room_1", 1, 0, &[1]),
    ("sqlite_autoindex_person_1", 3, 2, &[1]),
    ("sqlite_autoindex_person_2", 4, 2, &[3]),
    ("sqlite_autoindex_person_3", 5, 2, &[4]),
    ("sqlite_autoindex_move_1", 8, 7, &[1, 2]),
    ("sqlite_autoindex_list_1", 10, 9, &[1]),
    ("sqlite_autoindex_grade_1", 12, 11, &[1]),
    ("sqlite_autoindex_word_1", 14, 13, &[1]),
    ("sqlite_autoindex_result_1", 16, 15, &[1]),
    ("sqlite_autoindex_result_2", 17, 15, &[2]),
    ("sqlite_autoindex_choice_1", 19, 18, &[1, 2]),
    ("sqlite_autoindex_choice_2", 20, 18, &[1, 3]),
    ("sqlite_autoindex_going_1", 22, 21, &[1]),
];

pub(super) const DOCUMENTED: [OwnIndex; 13] = [
    ("sqlite_autoindex_room_1", 1, 0, &[1]),
    ("sqlite_autoindex_person_1", 3, 2, &[1]),
    ("sqlite_autoindex_person_2", 4, 2, &[3]),
    ("sqlite_autoindex_person_3", 5, 2, &[4]),
    ("sqlite_autoindex_choice_1", 8, 7, &[1, 2]),
    ("sqlite_autoindex_choice_2", 9, 7, &[1, 3]),
    ("sqlite_autoindex_word_1", 11, 10, &[1]),
    ("sqlite_autoindex_result_1", 13, 12, &[1]),
    ("sqlite_autoindex_result_2", 14, 12, &[2]),
    ("sqlite_autoindex_move_1", 16, 15, &[1, 2]),
    ("sqlite_autoindex_list_1", 18, 17, &[1]),
    ("sqlite_autoindex_grade_1", 20, 19, &[1]),
    ("sqlite_autoindex_going_1", 22, 21, &[1]),
];

pub(super) const EARLIER: [OwnIndex; 11] = [
    ("sqlite_autoindex_room_1", 1, 0, &[1]),
    ("sqlite_autoindex_person_1", 3, 2, &[1]),
    ("sqlite_autoindex_person_2", 4, 2, &[3]),
    ("sqlite_autoindex_person_3", 5, 2, &[4]),
    ("sqlite_autoindex_move_1", 8, 7, &[1, 2]),
    ("sqlite_autoindex_list_1", 10, 9, &[1]),
    ("sqlite_autoindex_word_1", 12, 11, &[1]),
    ("sqlite_autoindex_result_1", 14, 13, &[1]),
    ("sqlite_autoindex_result_2", 15, 13, &[2]),
    ("sqlite_autoindex_choice_1", 17, 16, &[1, 2]),
    ("sqlite_autoindex_choice_2", 18, 16, &[1, 3]),
];
