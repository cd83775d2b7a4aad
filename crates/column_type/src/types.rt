// The type of a column, as the row of a leaf has it.
//
// kind is 0 for a plain leaf, a logical code, or 21 for INTERVAL; p1 and p2 are precision and scale of a DECIMAL, else the
// parameters a and b. Any number may stand in a field.
#[derive(Clone, Copy)]
pub struct ColumnType {
    pub physical: u32,
    pub type_length: u32,
    pub kind: u32,
    pub p1: u32,
    pub p2: u32,
}
