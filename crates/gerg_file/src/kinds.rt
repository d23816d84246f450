// The records of each kind. `specs/Kinds.antt` has the same names.

ghost use Rattle.std.specs.Prelude.{◌≤◌, ◌<◌};

#[derive(Clone, Copy)]
pub struct Kind {
    // the byte that a record begins with; a number, since it is compared with the file's alone
    pub kind: usize,
    // the bytes of the whole record, kind byte included
    pub size: usize,
    // where its bytes begin that are no leading numbers, and where its doubles, counted from the kind byte
    pub bytes: usize,
    pub doubles: usize,
    pub ghost within: { (4 ≤ size) × ((size < 256) × ((kind < 256) × (bytes < size))) },
}

// One revision, at the start of the file: 40 characters.
pub const REVISION: Kind = Kind {
    kind: 1,
    size: 41,
    bytes: 1,
    doubles: 41,
};

// Component, Tc, MMiGERG, kpol, kexp, n0i 1 to 7, th0i 4 to 7: its counts, and its ideal part.
pub const COMPONENT: Kind = Kind {
    kind: 2,
    size: 108,
    bytes: 18,
    doubles: 20,
};

pub const COMPONENT_TC: usize = 2;

pub const COMPONENT_MASS: usize = 10;

// Component, term, coik, doik, noik, toik.
pub const TERM: Kind = Kind {
    kind: 3,
    size: 21,
    bytes: 3,
    doubles: 5,
};

// i, j, btij, bvij, gtij, gvij, fij, mNumb.
pub const PAIR: Kind = Kind {
    kind: 4,
    size: 44,
    bytes: 43,
    doubles: 3,
};

// Departure function, kpolij, kexpij.
pub const FUNCTION: Kind = Kind {
    kind: 5,
    size: 4,
    bytes: 2,
    doubles: 4,
};

// Departure function, term, dijk, cijk, eijk, gijk, nijk, tijk.
pub const DEPARTURE: Kind = Kind {
    kind: 6,
    size: 44,
    bytes: 3,
    doubles: 4,
};
