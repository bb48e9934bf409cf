//! What is found of each part of a message that ends early, from so many bytes of it on.

use crate::messages::*;

/// What is found where a part ends early.
#[derive(Clone, Copy)]
pub enum Cut {
    /// Nothing wrong: the message has so many extensions and certificates.
    Whole(usize, usize),
    /// The part ends before a field does.
    Short,
    /// The length at this place says more than is left.
    LengthPast(usize),
}

use Cut::{LengthPast, Short, Whole};

/// Nothing wrong in the body.
pub const SOUND: Cut = Whole(2, 1);

/// What is found, from so many bytes on.
pub type Cuts = &'static [(usize, Cut)];

/// The lengths that bound a part, from the outermost to its own, by their places and their bytes.
pub type Lengths = &'static [(usize, usize)];

/// Bodies. Places are counted from the front of the contents, in which a body begins at 6.
pub const BODIES: [(&str, Cuts); 22] = [
    (PROBE, &[(0, Short), (1, LengthPast(6)), (4, SOUND)]),
    (PROBE_ANS, &[(0, Short), (2, LengthPast(6)), (20, SOUND)]),
    (STORE, &[(0, Short), (22, LengthPast(24)), (59, SOUND)]),
    (STORE_ANS, &[(0, Short), (2, LengthPast(6)), (78, SOUND)]),
    (FETCH, &[(0, Short), (19, LengthPast(23)), (50, SOUND)]),
    (FETCH_ANS, &[(0, Short), (4, LengthPast(6)), (41, SOUND)]),
    (JOIN, &[(0, Short), (18, LengthPast(22)), (20, SOUND)]),
    (JOIN_ANS, &[(0, Short), (2, LengthPast(6)), (5, SOUND)]),
    (
        LEAVE_FROM_SUCCESSOR,
        &[(0, Short), (18, LengthPast(22)), (53, SOUND)],
    ),
    (
        LEAVE_FROM_PREDECESSOR,
        &[(0, Short), (18, LengthPast(22)), (37, SOUND)],
    ),
    (LEAVE_ANS, &[(0, SOUND)]),
    (UPDATE_READY, &[(0, Short), (5, SOUND)]),
    (
        UPDATE_NEIGHBORS,
        &[
            (0, Short),
            (7, LengthPast(11)),
            (23, Short),
            (25, LengthPast(29)),
            (57, SOUND),
        ],
    ),
    (
        UPDATE_FULL,
        &[
            (0, Short),
            (7, LengthPast(11)),
            (23, Short),
            (25, LengthPast(29)),
            (41, Short),
            (43, LengthPast(47)),
            (75, SOUND),
        ],
    ),
    (UPDATE_ANS, &[(0, SOUND)]),
    (PING, &[(0, Short), (2, LengthPast(6)), (5, SOUND)]),
    (PING_ANS, &[(0, Short), (16, SOUND)]),
    (
        TRACK_A_NODE,
        &[(0, Short), (2, LengthPast(7)), (18, Short), (42, SOUND)],
    ),
    (
        TRACK_A_RESOURCE,
        &[(0, Short), (2, LengthPast(7)), (19, Short), (43, SOUND)],
    ),
    (
        TRACK_ANS,
        &[
            (0, Short),
            (2, LengthPast(7)),
            (18, Short),
            (37, LengthPast(41)),
            (50, SOUND),
        ],
    ),
    (ERROR, &[(0, Short), (4, LengthPast(8)), (7, SOUND)]),
    (OTHER, &[(0, SOUND)]),
];

/// Lists of Node-IDs in bodies: whole where no Node-ID is cut.
pub const NODE_IDS: [(&str, Lengths); 9] = [
    (STORE_ANS, &[(2, 4), (6, 2), (20, 2)]),
    (STORE_ANS, &[(2, 4), (6, 2), (66, 2)]),
    (LEAVE_FROM_SUCCESSOR, &[(2, 4), (22, 2), (25, 2)]),
    (LEAVE_FROM_PREDECESSOR, &[(2, 4), (22, 2), (25, 2)]),
    (UPDATE_NEIGHBORS, &[(2, 4), (11, 2)]),
    (UPDATE_NEIGHBORS, &[(2, 4), (29, 2)]),
    (UPDATE_FULL, &[(2, 4), (11, 2)]),
    (UPDATE_FULL, &[(2, 4), (29, 2)]),
    (UPDATE_FULL, &[(2, 4), (47, 2)]),
];

/// Parts that are whole at any number of bytes.
pub const ANY_BYTES: [(&str, Lengths); 13] = [
    (PROBE, &[(2, 4), (6, 1)]),
    (STORE, &[(2, 4), (24, 4), (40, 4)]),
    (STORE, &[(2, 4), (24, 4), (59, 4)]),
    (FETCH, &[(2, 4), (23, 2), (37, 2)]),
    (FETCH, &[(2, 4), (23, 2), (53, 2)]),
    (FETCH_ANS, &[(2, 4), (6, 4), (22, 4)]),
    (FETCH_ANS, &[(2, 4), (6, 4), (40, 4)]),
    (JOIN, &[(2, 4), (22, 2)]),
    (JOIN_ANS, &[(2, 4), (6, 2)]),
    (PING, &[(2, 4), (6, 2)]),
    (TRACK_ANS, &[(2, 4), (41, 2), (45, 2)]),
    (TRACK_ANS, &[(2, 4), (41, 2), (50, 2)]),
    (ERROR, &[(2, 4), (8, 2)]),
];

/// Other lists and parts in bodies.
pub const LISTS: [(&str, Lengths, Cuts); 8] = [
    (
        PROBE_ANS,
        &[(2, 4), (6, 2)],
        &[
            (0, SOUND),
            (1, Short),
            (2, LengthPast(9)),
            (6, SOUND),
            (7, Short),
            (8, LengthPast(15)),
            (12, SOUND),
            (13, Short),
            (14, LengthPast(21)),
            (18, SOUND),
        ],
    ),
    (
        STORE,
        &[(2, 4), (24, 4)],
        &[
            (0, SOUND),
            (1, Short),
            (16, LengthPast(40)),
            (19, SOUND),
            (20, Short),
            (35, LengthPast(59)),
            (37, SOUND),
        ],
    ),
    (
        STORE_ANS,
        &[(2, 4), (6, 2)],
        &[
            (0, SOUND),
            (1, Short),
            (14, LengthPast(20)),
            (46, SOUND),
            (47, Short),
            (60, LengthPast(66)),
            (76, SOUND),
        ],
    ),
    (
        FETCH,
        &[(2, 4), (23, 2)],
        &[
            (0, SOUND),
            (1, Short),
            (14, LengthPast(37)),
            (16, SOUND),
            (17, Short),
            (30, LengthPast(53)),
            (31, SOUND),
        ],
    ),
    (
        FETCH_ANS,
        &[(2, 4), (6, 4)],
        &[
            (0, SOUND),
            (1, Short),
            (16, LengthPast(22)),
            (18, SOUND),
            (19, Short),
            (34, LengthPast(40)),
            (37, SOUND),
        ],
    ),
    (
        LEAVE_FROM_SUCCESSOR,
        &[(2, 4), (22, 2)],
        &[(0, Short), (3, LengthPast(25)), (35, SOUND)],
    ),
    (
        LEAVE_FROM_PREDECESSOR,
        &[(2, 4), (22, 2)],
        &[(0, Short), (3, LengthPast(25)), (19, SOUND)],
    ),
    (
        TRACK_ANS,
        &[(2, 4), (41, 2)],
        &[
            (0, SOUND),
            (1, Short),
            (4, LengthPast(45)),
            (5, SOUND),
            (6, Short),
            (9, LengthPast(50)),
            (13, SOUND),
        ],
    ),
];

/// The extensions, and what is in each of them. Places are counted from their length.
pub const EXTENSIONS: [(Lengths, Cuts); 3] = [
    (
        &[(0, 4)],
        &[
            (0, Whole(0, 1)),
            (1, Short),
            (7, LengthPast(7)),
            (10, Whole(1, 1)),
            (11, Short),
            (17, LengthPast(17)),
            (18, SOUND),
        ],
    ),
    (&[(0, 4), (7, 4)], &[(0, SOUND)]),
    (&[(0, 4), (17, 4)], &[(0, SOUND)]),
];

/// Parts of a security block, from whose front places are counted: its certificates and what is in
/// one, its identity and the hash in it.
pub const BLOCK: [(Lengths, Cuts); 4] = [
    (
        &[(0, 2)],
        &[(0, Whole(2, 0)), (1, Short), (3, LengthPast(3)), (6, SOUND)],
    ),
    (&[(0, 2), (3, 2)], &[(0, SOUND)]),
    (&[(11, 2)], &[(0, Short), (2, LengthPast(14)), (4, SOUND)]),
    (&[(11, 2), (14, 1)], &[(0, SOUND)]),
];

/// A message that ends in its header.
pub const IN_HEADER: Cuts = &[
    (0, Short),
    (38, LengthPast(32)),
    (58, LengthPast(34)),
    (83, LengthPast(36)),
];

/// One that ends in its contents, before the extensions.
pub const IN_CONTENTS: Cuts = &[(0, Short), (6, LengthPast(2))];

/// One that ends in its extensions.
pub const IN_EXTENSIONS: Cuts = &[(0, Short), (4, LengthPast(0))];

/// One that ends in its security block, or behind it.
pub const IN_BLOCK: Cuts = &[
    (0, Short),
    (2, LengthPast(0)),
    (8, Short),
    (13, LengthPast(11)),
    (17, Short),
    (19, LengthPast(17)),
    (21, SOUND),
];

/// What is found of so many bytes.
pub fn cut_at(cuts: &[(usize, Cut)], kept: usize) -> Cut {
    let mut found = SOUND;
    for (from, cut) in cuts.iter().copied() {
        if from <= kept {
            found = cut;
        }
    }
    found
}
