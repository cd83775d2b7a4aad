// Logical types with their parameters, how they are spelled, and what the annotations of a slot say. Contracts speak of these; code goes
// by the codes of a slot, but for `timestamp`, which goes by `TimeUnit`.

#[derive(Clone, Copy)]
pub enum TimeUnit {
    Millis,
    Micros,
    Nanos,
}

#[derive(Clone, Copy)]
pub enum BitWidth {
    Bits8,
    Bits16,
    Bits32,
    Bits64,
}

// How the edges between a GEOGRAPHY's points run.
#[derive(Clone, Copy)]
pub enum EdgeRule {
    Spherical,
    Vincenty,
    Thomas,
    Andoyer,
    Karney,
}

#[derive(Clone, Copy)]
pub enum LogicalType {
    String,
    Map,
    List,
    Enum,
    Decimal,
    Date,
    Time {
        unit: TimeUnit,
        is_adjusted_to_utc: bool,
    },
    Timestamp {
        unit: TimeUnit,
        is_adjusted_to_utc: bool,
    },
    Integer {
        bit_width: BitWidth,
        is_signed: bool,
    },
    Unknown,
    Json,
    Bson,
    Uuid,
    Geometry,
    Geography {
        edge_rule: EdgeRule,
    },
}

// The numbers of a slot that spell its logical type.
#[derive(Clone, Copy)]
pub struct Spelling {
    pub logical: u8,
    pub a: u8,
    pub b: u8,
}

// What the annotations of a slot say of its node.
#[derive(Clone, Copy)]
pub enum Annotation {
    // None.
    Plain,
    Logical(LogicalType),
    // INTERVAL, which exists only as a converted type.
    Interval,
    // A code outside the lists, or parameters that the type does not have.
    Unreadable,
}
