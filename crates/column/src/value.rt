// A value that was read, and what reading two answers.
use refusal::Refusal;

// A value. The stretch of a bytes value is counted in the bytes that were read.
#[derive(Clone, Copy)]
pub enum Value {
    Truth(bool),
    Signed(i64),
    Unsigned(u64),
    Float(f32),
    Double(f64),
    Bytes { start: usize, len: usize },
}

// What reading two values of one column type answers: each value, or the first refusal that holds of it.
#[derive(Clone, Copy)]
pub struct Both {
    pub first: Result<Value, Refusal>,
    pub second: Result<Value, Refusal>,
}
