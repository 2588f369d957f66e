//! States that are one number.

/// The state of a register or a counter, as plain data.
#[derive(Clone, Copy, Debug, PartialEq, Eq)]
pub enum Number {
    Register(i64),
    Counter(i64),
}

impl Default for Number {
    fn default() -> Number {
        Number::Register(0)
    }
}
