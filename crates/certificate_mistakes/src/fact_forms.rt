//! The forms of the facts of certificates.

/// The form of a fact. Its parts are counted from 0.
pub(crate) struct FactForm {
    pub(crate) name: &'static str,
    /// How many parts it has.
    pub(crate) parts: u32,
    /// The part that is a predicate, if one is.
    pub(crate) pred: Option<u32>,
    /// The parts from the first on that are counted from 1, and the one after them.
    pub(crate) first: u32,
    pub(crate) end: u32,
    /// The form's place in the order of the facts.
    pub(crate) rank: u32,
}

/// The forms, in the order of the facts.
const FORMS: [FactForm; 17] = [
    FactForm {
        name: "cti",
        parts: 1,
        pred: None,
        first: 0,
        end: 0,
        rank: 0,
    },
    FactForm {
        name: "norm",
        parts: 1,
        pred: None,
        first: 0,
        end: 0,
        rank: 1,
    },
    FactForm {
        name: "terminates",
        parts: 2,
        pred: Some(0),
        first: 0,
        end: 0,
        rank: 2,
    },
    FactForm {
        name: "size",
        parts: 3,
        pred: Some(0),
        first: 1,
        end: 2,
        rank: 3,
    },
    FactForm {
        name: "by",
        parts: 4,
        pred: None,
        first: 0,
        end: 2,
        rank: 4,
    },
    FactForm {
        name: "grounds",
        parts: 3,
        pred: Some(0),
        first: 1,
        end: 2,
        rank: 5,
    },
    FactForm {
        name: "measure",
        parts: 4,
        pred: Some(0),
        first: 1,
        end: 2,
        rank: 6,
    },
    FactForm {
        name: "falls",
        parts: 5,
        pred: None,
        first: 0,
        end: 3,
        rank: 7,
    },
    FactForm {
        name: "pre",
        parts: 4,
        pred: Some(0),
        first: 1,
        end: 3,
        rank: 8,
    },
    FactForm {
        name: "none",
        parts: 2,
        pred: Some(0),
        first: 1,
        end: 2,
        rank: 9,
    },
    FactForm {
        name: "point",
        parts: 4,
        pred: None,
        first: 0,
        end: 2,
        rank: 9,
    },
    FactForm {
        name: "at",
        parts: 4,
        pred: None,
        first: 0,
        end: 2,
        rank: 9,
    },
    FactForm {
        name: "image",
        parts: 4,
        pred: Some(2),
        first: 0,
        end: 2,
        rank: 10,
    },
    FactForm {
        name: "step",
        parts: 4,
        pred: Some(1),
        first: 0,
        end: 1,
        rank: 10,
    },
    FactForm {
        name: "weak",
        parts: 1,
        pred: None,
        first: 0,
        end: 0,
        rank: 10,
    },
    FactForm {
        name: "blown",
        parts: 2,
        pred: Some(0),
        first: 0,
        end: 0,
        rank: 10,
    },
    FactForm {
        name: "large",
        parts: 2,
        pred: Some(0),
        first: 1,
        end: 2,
        rank: 10,
    },
];

/// The form of the facts of a name.
pub(crate) fn form_of(name: &[u8]) -> Option<&'static FactForm> {
    for form in &FORMS {
        if form.name.as_bytes() == name {
            return Some(form);
        }
    }
    None
}
