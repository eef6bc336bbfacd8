// The kinds of types, each with its octet and its own UNIVERSAL tag, and the same of a number that may be no kind's octet (FORMATS, "Tables";
// X.690, 8.1.2).
#![tactic(auto)]

ghost use Rattle.std.specs.Prelude.{◌≡◌, ◌||◌, ◌↔◌, Some, eqb};
ghost use Rattle.table.specs.Fields.{universal_of, constructed_of, time_kind};
ghost use Rattle.kinds.specs.declared.Kind.{Kind};
ghost use Rattle.kinds.specs.Kinds.{octet_of, place_of, kind_at, kind_of};

use dates::TimeKind;

// In the order of their places.
#[derive(Clone, Copy, Debug, PartialEq, Eq)]
pub enum Kind {
    Boolean,
    Integer,
    BitString,
    OctetString,
    Null,
    Enumerated,
    UtcTime,
    GeneralizedTime,
    Sequence,
    Set,
    SequenceOf,
    SetOf,
    Choice,
    // No record's: what stands in a message is one item.
    Message,
}

// The identifier octet of each kind's own UNIVERSAL tag: the number in the low five bits, and 32 for constructed. A CHOICE has no tag of its own.
const IDENTIFIER: [u8; 14] = [1, 2, 3, 4, 5, 10, 23, 24, 48, 49, 48, 49, 32, 32];

// The place of the kind that has each octet; that of a message where none has.
const PLACE: [u8; 52] = [
    13, 0, 1, 2, 3, 4, 13, 13, 13, 13, 5, 13, 13, 13, 13, 13, 8, 9, 13, 13, 13, 13, 13, 6, 7, 13,
    13, 13, 13, 13, 13, 13, 13, 13, 13, 13, 13, 13, 13, 13, 13, 13, 13, 13, 13, 13, 13, 13, 10, 11,
    12, 13,
];

impl Kind {
    // Its octet in tables and values.
    pub fn octet(self) -> u8
        ensures { result ≡ octet_of self }
    {
        match self {
            Kind::Boolean => 1,
            Kind::Integer => 2,
            Kind::BitString => 3,
            Kind::OctetString => 4,
            Kind::Null => 5,
            Kind::Enumerated => 10,
            Kind::UtcTime => 23,
            Kind::GeneralizedTime => 24,
            Kind::Sequence => 16,
            Kind::Set => 17,
            Kind::SequenceOf => 48,
            Kind::SetOf => 49,
            Kind::Choice => 50,
            Kind::Message => 51,
        }
    }

    // The kind that has the octet, if one has.
    pub fn of(octet: u8) -> Option<Kind>
        ensures { (k : Kind) → (result ≡ Some k) ↔ (octet_of k ≡ octet) }
    {
        match octet {
            1 => Some(Kind::Boolean),
            2 => Some(Kind::Integer),
            3 => Some(Kind::BitString),
            4 => Some(Kind::OctetString),
            5 => Some(Kind::Null),
            10 => Some(Kind::Enumerated),
            23 => Some(Kind::UtcTime),
            24 => Some(Kind::GeneralizedTime),
            16 => Some(Kind::Sequence),
            17 => Some(Kind::Set),
            48 => Some(Kind::SequenceOf),
            49 => Some(Kind::SetOf),
            50 => Some(Kind::Choice),
            51 => Some(Kind::Message),
            _ => None,
        }
    }

    // Its place among the kinds.
    pub fn place(self) -> u8
        ensures { result ≡ place_of self }
    {
        self as u8
    }

    // The kind at a place; a message from the last on. A compiler turns these tests into one.
    #[tactic(auto, unfolding(crate::specs::Kinds::kind_at))]
    pub fn at(place: u8) -> Kind
        ensures { result ≡ kind_at place }
    {
        match place {
            0 => Kind::Boolean,
            1 => Kind::Integer,
            2 => Kind::BitString,
            3 => Kind::OctetString,
            4 => Kind::Null,
            5 => Kind::Enumerated,
            6 => Kind::UtcTime,
            7 => Kind::GeneralizedTime,
            8 => Kind::Sequence,
            9 => Kind::Set,
            10 => Kind::SequenceOf,
            11 => Kind::SetOf,
            12 => Kind::Choice,
            _ => Kind::Message,
        }
    }

    // The kind that has the octet; a message for an octet that no kind has. A look-up takes less time than the tests of `of`.
    #[inline(always)]
    #[tactic(auto, using(crate::proofs::Same::placed, crate::proofs::Same::beyond))]
    pub fn or_message(octet: u8) -> Kind
        ensures { result ≡ kind_of octet }
    {
        if octet < 52 {
            return Kind::at(PLACE[octet as usize]);
        }
        Kind::Message
    }

    // Whether what it holds is members.
    pub fn has_members(self) -> bool
        ensures { result ≡ (eqb (octet_of self) 16 || eqb (octet_of self) 17) }
    {
        matches!(self, Kind::Sequence | Kind::Set)
    }

    // Whether what it holds is elements of one type.
    pub fn is_list(self) -> bool
        ensures { result ≡ (eqb (octet_of self) 48 || eqb (octet_of self) 49) }
    {
        matches!(self, Kind::SequenceOf | Kind::SetOf)
    }

    // Whether it is a string, which may come in segments.
    pub fn is_string(self) -> bool
        ensures { result ≡ (eqb (octet_of self) 3 || eqb (octet_of self) 4) }
    {
        matches!(self, Kind::BitString | Kind::OctetString)
    }

    // Whether what it holds is one item.
    pub fn holds_one(self) -> bool
        ensures { result ≡ (eqb (octet_of self) 50 || eqb (octet_of self) 51) }
    {
        matches!(self, Kind::Choice | Kind::Message)
    }

    // Which time it is, if it is one.
    #[tactic(auto, unfolding(table::specs::Fields::time_kind))]
    pub fn time(self) -> TimeKind
        ensures { result ≡ time_kind (octet_of self) }
    {
        match self {
            Kind::UtcTime => TimeKind::Utc,
            _ => TimeKind::Generalized,
        }
    }

    // Its UNIVERSAL number; 0 for a CHOICE and a message.
    #[tactic(auto, using(crate::proofs::Identifiers::universal_table))]
    pub fn universal(self) -> usize
        ensures { result ≡ universal_of (octet_of self) }
    {
        (IDENTIFIER[self as usize] % 32) as usize
    }

    // Whether it is constructed.
    #[tactic(auto, using(crate::proofs::Identifiers::constructed_table))]
    pub fn constructed(self) -> bool
        ensures { result ≡ constructed_of (octet_of self) }
    {
        IDENTIFIER[self as usize] / 32 == 1
    }
}

// What follows answers for every number. One that is no kind's octet holds nothing, and like a CHOICE it has no tag of its own.

// Whether what a kind holds is members.
pub fn has_members(kind: u8) -> bool
    ensures { result ≡ (eqb kind 16 || eqb kind 17) }
{
    kind == Kind::Sequence.octet() || kind == Kind::Set.octet()
}

// Whether what a kind holds is elements of one type.
pub fn is_list(kind: u8) -> bool
    ensures { result ≡ (eqb kind 48 || eqb kind 49) }
{
    kind == Kind::SequenceOf.octet() || kind == Kind::SetOf.octet()
}

// Whether a kind is a string, which may come in segments.
pub fn is_string(kind: u8) -> bool
    ensures { result ≡ (eqb kind 3 || eqb kind 4) }
{
    kind == Kind::BitString.octet() || kind == Kind::OctetString.octet()
}

// Whether what a kind holds is one item.
pub fn holds_one(kind: u8) -> bool
    ensures { result ≡ (eqb kind 50 || eqb kind 51) }
{
    kind == Kind::Choice.octet() || kind == Kind::Message.octet()
}

// Which time a kind is, if it is one.
#[tactic(auto, unfolding(table::specs::Fields::time_kind))]
pub fn time_kind(kind: u8) -> TimeKind
    ensures { result ≡ time_kind kind }
{
    if kind == Kind::UtcTime.octet() {
        return TimeKind::Utc;
    }
    TimeKind::Generalized
}

// The UNIVERSAL number of a kind; 0 for a CHOICE.
#[tactic(auto, using(crate::proofs::Identifiers::universal_kept, crate::proofs::Identifiers::universal_beyond))]
pub fn universal(kind: usize) -> usize
    ensures { result ≡ universal_of kind }
{
    match u8::try_from(kind) {
        Ok(octet) => Kind::or_message(octet).universal(),
        Err(_) => 0,
    }
}

// Whether a kind is constructed.
#[tactic(auto, using(crate::proofs::Identifiers::constructed_kept, crate::proofs::Identifiers::constructed_beyond))]
pub fn constructed(kind: usize) -> bool
    ensures { result ≡ constructed_of kind }
{
    match u8::try_from(kind) {
        Ok(octet) => Kind::or_message(octet).constructed(),
        Err(_) => true,
    }
}
