//! The operations on words.
/// An operation on two words, by its name in the RISC-V unprivileged manual (RV32I and M).
#[derive(Clone, Copy, Debug, PartialEq, Eq, Hash)]
pub enum AluOp {
    Add,
    Sub,
    /// Shift left by the low five bits.
    Sll,
    /// Whether one signed word is below the other, as 1 or 0.
    Slt,
    /// Whether one unsigned word is below the other, as 1 or 0.
    Sltu,
    Xor,
    /// Shift right by the low five bits, with zeros from the left.
    Srl,
    /// Shift right by the low five bits, with the sign bit from the left.
    Sra,
    Or,
    And,
    /// The low word of the product.
    Mul,
    /// The high word of the product of two signed words.
    Mulh,
    /// The high word of the product of a signed word and an unsigned one.
    Mulhsu,
    /// The high word of the product of two unsigned words.
    Mulhu,
    Div,
    Divu,
    Rem,
    Remu,
}
