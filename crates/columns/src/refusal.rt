// Why a call is refused, a word for each condition of document 01.

#[derive(Clone, Copy, Debug, PartialEq, Eq)]
pub enum Refusal {
    SubjectLength,
    EdgeEntries,
    NumberRange,
    ParentNotEarlier,
    ParentTwice,
    UnresolvedChild,
    UnresolvedKind,
    DepthOrder,
    LabelCount,
    SeqNotRising,
    InboundChild,
    InboundParent,
    InboundTwice,
    GranuleRows,
    DeltaRange,
    RootOutside,
    OffsetsForm,
    DeltaCount,
    TargetSide,
    LabelColumns,
    LabelRange,
    CoverForm,
    RecordBroken,
    GroupOrder,
    SourceOrder,
    CoverInSome,
    NoSurvivor,
    OutOfTurn,
    SliceShort,
    OverRecords,
    OverNumbers,
}

impl Refusal {
    ghost use Rattle.std.specs.Prelude.{◌≡◌};
    ghost use Rattle.columns.specs.Refusal.{number_of};

    // Document 01's number of a refusal.
    pub fn number(self) -> u64
        ensures { result ≡ number_of self }
    {
        match self {
            Refusal::SubjectLength => 1,
            Refusal::EdgeEntries => 2,
            Refusal::NumberRange => 3,
            Refusal::ParentNotEarlier => 4,
            Refusal::ParentTwice => 5,
            Refusal::UnresolvedChild => 6,
            Refusal::UnresolvedKind => 7,
            Refusal::DepthOrder => 8,
            Refusal::LabelCount => 9,
            Refusal::SeqNotRising => 10,
            Refusal::InboundChild => 11,
            Refusal::InboundParent => 12,
            Refusal::InboundTwice => 13,
            Refusal::GranuleRows => 14,
            Refusal::DeltaRange => 15,
            Refusal::RootOutside => 16,
            Refusal::OffsetsForm => 17,
            Refusal::DeltaCount => 18,
            Refusal::TargetSide => 19,
            Refusal::LabelColumns => 20,
            Refusal::LabelRange => 21,
            Refusal::CoverForm => 22,
            Refusal::RecordBroken => 23,
            Refusal::GroupOrder => 24,
            Refusal::SourceOrder => 25,
            Refusal::CoverInSome => 26,
            Refusal::NoSurvivor => 27,
            Refusal::OutOfTurn => 40,
            Refusal::SliceShort => 41,
            Refusal::OverRecords => 42,
            Refusal::OverNumbers => 43,
        }
    }
}
