// Times: a date and a time of day by Gregory's calendar, with no table and no encoding in them (FORMATS, "Times").
#![tactic(auto)]

// What a time is given as: the year of a UTCTime has two digits, that of a GeneralizedTime four.
#[derive(Clone, Copy, Debug, PartialEq, Eq)]
pub enum TimeKind {
    Utc,
    Generalized,
}

// A date and a time of day. Its fields stand in the order in which times are compared.
#[derive(Clone, Copy, Debug, PartialEq, Eq, PartialOrd, Ord)]
pub struct DateTime {
    pub year: u16,
    pub month: u8,
    pub day: u8,
    pub hour: u8,
    pub minute: u8,
    pub second: u8,
}
