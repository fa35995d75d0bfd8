//! The lines of a register, each with its answer.

/// A script that adds rooms and people, gives people homes, and opens two rounds. The office refuses some of the
/// lines.
pub const REGISTER: [(&str, &str); 28] = [
    ("room H1", "ok\n"),
    ("room H2", "ok\n"),
    ("person T1 key00000000000t1 Tim Tan", "ok\n"),
    ("home T1 H1", "ok\n"),
    ("home T1 H2", "refused 9 HasHome\n"),
    ("remove T1", "refused 9 HasHome\n"),
    ("person T2 key00000000000t1 Tom Tao", "refused 6 KeyInUse\n"),
    ("person T2 key00000000000t2 Tom Tao", "ok\n"),
    ("home T2 H1", "refused 8 RoomTaken\n"),
    (
        "people",
        "person        home      name\nT1            H1        Tim Tan\nT2            none      Tom Tao\n",
    ),
    ("leave T1", "ok\n"),
    ("leave T1", "refused 10 NoHome\n"),
    ("home T1 H9", "refused 3 UnknownRoom H9\n"),
    ("shut H2", "shut\n"),
    ("shut H2", "refused 7 RoomShut H2\n"),
    ("reopen H2", "ok\n"),
    ("reopen H2", "refused 18 NotShut\n"),
    ("open", "round 1 open\n"),
    ("leave T1", "refused 1 BadPhase open\n"),
    ("choose T9 H9", "refused 2 UnknownPerson\n"),
    ("cancel", "cancelled\n"),
    ("open", "round 2 open\n"),
    ("moves 1", "wave  person        from      to\n"),
    ("moves 2", "refused 17 NoSuchRound\n"),
    (
        "me key00000000000t1",
        "person T1\nname Tim Tan\nhome none\nround 2 open\nchoices\nwithdrawn no\ngoing no\nresult hidden\n",
    ),
    ("me key00000000000t9", "refused 2 UnknownPerson\n"),
    ("round", "round 2 open people 2 withdrawn 0\n"),
    ("close", "closed 2\n"),
];
