//! Books whose trees, counts and records were worked out by hand.
use crate::answer::Answer;
use crate::examples::{Example, GOAL_WITH_BODIES, LARGER_SET, RESTART, RESTART_AT_HEAD};
use crate::judge::Table;
use crate::trees::Case;

pub const CASES: &[Case<'static>] = &[
    // A fact.
    Case {
        example: Example {
            rules: &[b"q"],
            goal: b"q",
            forbidden: Answer::Yes { count: 1, len: 2 },
            allowed: Answer::Yes { count: 1, len: 2 },
            tree: &[1, 0],
        },
        table: Table {
            rows: &[(b'q', &[]), (b'q', &[])],
            in_force: &[0],
            goal: b'q',
        },
    },
    // Restart.
    Case {
        example: RESTART,
        table: Table {
            rows: &[(b'a', &[]), (b'b', &[0]), (b'a', &[1]), (b'a', &[])],
            in_force: &[2],
            goal: b'a',
        },
    },
    // Restart where the name heads a rule.
    Case {
        example: RESTART_AT_HEAD,
        table: Table {
            rows: &[
                (b'b', &[]),
                (b'b', &[0]),
                (b'a', &[]),
                (b'b', &[2]),
                (b'a', &[3]),
                (b'a', &[]),
            ],
            in_force: &[1, 4],
            goal: b'a',
        },
    },
    // Restart below two suppositions.
    Case {
        example: Example {
            rules: &[b"p if (q if p)", b"q if (r if q)"],
            goal: b"p",
            forbidden: Answer::No { count: 3 },
            allowed: Answer::Yes { count: 4, len: 7 },
            tree: &[1, 2, 1, 5, 2, 1, 0],
        },
        table: Table {
            rows: &[
                (b'p', &[]),
                (b'q', &[0]),
                (b'p', &[1]),
                (b'q', &[]),
                (b'r', &[3]),
                (b'q', &[4]),
                (b'p', &[]),
            ],
            in_force: &[2, 5],
            goal: b'p',
        },
    },
    // The same name from a larger set.
    Case {
        example: LARGER_SET,
        table: Table {
            rows: &[
                (b'a', &[]),
                (b'n', &[0]),
                (b'n', &[1]),
                (b'a', &[]),
                (b'n', &[3]),
                (b'n', &[4]),
            ],
            in_force: &[2, 4],
            goal: b'n',
        },
    },
    // The goal's bodies.
    Case {
        example: GOAL_WITH_BODIES,
        table: Table {
            rows: &[(b'b', &[]), (b'a', &[]), (b'a', &[0, 1])],
            in_force: &[0, 1],
            goal: b'a',
        },
    },
    // A goal's body with a body.
    Case {
        example: Example {
            rules: &[],
            goal: b"b if a, (b if a)",
            forbidden: Answer::Yes { count: 2, len: 4 },
            allowed: Answer::Yes { count: 2, len: 4 },
            tree: &[1, 2, 1, 0],
        },
        table: Table {
            rows: &[(b'a', &[]), (b'a', &[]), (b'b', &[1]), (b'b', &[0, 2])],
            in_force: &[0, 2],
            goal: b'b',
        },
    },
    // Two bodies.
    Case {
        example: Example {
            rules: &[b"a", b"b", b"c if a, b"],
            goal: b"c",
            forbidden: Answer::Yes { count: 3, len: 6 },
            allowed: Answer::Yes { count: 3, len: 6 },
            tree: &[1, 4, 1, 0, 1, 1],
        },
        table: Table {
            rows: &[
                (b'a', &[]),
                (b'b', &[]),
                (b'a', &[]),
                (b'b', &[]),
                (b'c', &[2, 3]),
                (b'c', &[]),
            ],
            in_force: &[0, 1, 4],
            goal: b'c',
        },
    },
    // The second of two rules.
    Case {
        example: Example {
            rules: &[b"a if b", b"a if c", b"c"],
            goal: b"a",
            forbidden: Answer::Yes { count: 3, len: 4 },
            allowed: Answer::Yes { count: 3, len: 4 },
            tree: &[1, 3, 1, 4],
        },
        table: Table {
            rows: &[
                (b'b', &[]),
                (b'a', &[0]),
                (b'c', &[]),
                (b'a', &[2]),
                (b'c', &[]),
                (b'a', &[]),
            ],
            in_force: &[1, 3, 4],
            goal: b'a',
        },
    },
    // A circle that is barred.
    Case {
        example: Example {
            rules: &[b"a if b", b"b if a", b"b if c", b"c"],
            goal: b"a",
            forbidden: Answer::Yes { count: 3, len: 6 },
            allowed: Answer::Yes { count: 3, len: 6 },
            tree: &[1, 1, 1, 5, 1, 6],
        },
        table: Table {
            rows: &[
                (b'b', &[]),
                (b'a', &[0]),
                (b'a', &[]),
                (b'b', &[2]),
                (b'c', &[]),
                (b'b', &[4]),
                (b'c', &[]),
                (b'a', &[]),
            ],
            in_force: &[1, 3, 5, 6],
            goal: b'a',
        },
    },
    // A supposition that a rule needs.
    Case {
        example: Example {
            rules: &[b"c if (b if a)", b"b if a"],
            goal: b"c",
            forbidden: Answer::Yes { count: 3, len: 6 },
            allowed: Answer::Yes { count: 3, len: 6 },
            tree: &[1, 2, 1, 4, 1, 0],
        },
        table: Table {
            rows: &[
                (b'a', &[]),
                (b'b', &[0]),
                (b'c', &[1]),
                (b'a', &[]),
                (b'b', &[3]),
                (b'c', &[]),
            ],
            in_force: &[2, 4],
            goal: b'c',
        },
    },
    // Two bodies with suppositions of their own; with restart the failing `a` asks `d` again, which adds three queries.
    Case {
        example: Example {
            rules: &[b"d if (c if a), (c if b)", b"c if a", b"c if b"],
            goal: b"d",
            forbidden: Answer::Yes { count: 6, len: 10 },
            allowed: Answer::Yes { count: 9, len: 10 },
            tree: &[1, 4, 1, 6, 1, 0, 1, 8, 1, 2],
        },
        table: Table {
            rows: &[
                (b'a', &[]),
                (b'c', &[0]),
                (b'b', &[]),
                (b'c', &[2]),
                (b'd', &[1, 3]),
                (b'a', &[]),
                (b'c', &[5]),
                (b'b', &[]),
                (b'c', &[7]),
                (b'd', &[]),
            ],
            in_force: &[4, 6, 8],
            goal: b'd',
        },
    },
    // Eight bodies.
    Case {
        example: Example {
            rules: &[b"e if a, a, a, a, a, a, a, a", b"a"],
            goal: b"e",
            forbidden: Answer::Yes { count: 9, len: 18 },
            allowed: Answer::Yes { count: 9, len: 18 },
            tree: &[1, 8, 1, 9, 1, 9, 1, 9, 1, 9, 1, 9, 1, 9, 1, 9, 1, 9],
        },
        table: Table {
            rows: &[
                (b'a', &[]),
                (b'a', &[]),
                (b'a', &[]),
                (b'a', &[]),
                (b'a', &[]),
                (b'a', &[]),
                (b'a', &[]),
                (b'a', &[]),
                (b'e', &[0, 1, 2, 3, 4, 5, 6, 7]),
                (b'a', &[]),
                (b'e', &[]),
            ],
            in_force: &[8, 9],
            goal: b'e',
        },
    },
];
