//! Worked values of operations, conditions and extension.
use super::*;

// An operation, its operands and its result.
const RESULTS: [(AluOp, u32, u32, u32); 27] = [
    (AluOp::Add, 0xffff_ffff, 2, 1),
    (AluOp::Sub, 1, 2, 0xffff_ffff),
    (AluOp::Sll, 5, 32, 5),
    (AluOp::Sll, 3, 31, 0x8000_0000),
    (AluOp::Slt, 0x8000_0000, 0x7fff_ffff, 1),
    (AluOp::Sltu, 0x8000_0000, 0x7fff_ffff, 0),
    (AluOp::Xor, 0xff00_ff00, 0x0ff0_0ff0, 0xf0f0_f0f0),
    (AluOp::Srl, 0x8000_0000, 33, 0x4000_0000),
    (AluOp::Sra, 0x8000_0000, 31, 0xffff_ffff),
    (AluOp::Or, 0xff00_ff00, 0x0ff0_0ff0, 0xfff0_fff0),
    (AluOp::And, 0xff00_ff00, 0x0ff0_0ff0, 0x0f00_0f00),
    (AluOp::Mul, 0xffff_ffff, 0xffff_ffff, 1),
    (AluOp::Mulh, 0x8000_0000, 0x8000_0000, 0x4000_0000),
    (AluOp::Mulh, 0xffff_ffff, 1, 0xffff_ffff),
    (AluOp::Mulhsu, 0xffff_ffff, 0xffff_ffff, 0xffff_ffff),
    (AluOp::Mulhu, 0xffff_ffff, 0xffff_ffff, 0xffff_fffe),
    (AluOp::Div, 0x8000_0000, 0xffff_ffff, 0x8000_0000),
    (AluOp::Div, 0xffff_fff9, 2, 0xffff_fffd),
    (AluOp::Div, 7, 0, 0xffff_ffff),
    (AluOp::Divu, 7, 0, 0xffff_ffff),
    (AluOp::Divu, 0xffff_fff9, 2, 0x7fff_fffc),
    (AluOp::Rem, 0x8000_0000, 0xffff_ffff, 0),
    (AluOp::Rem, 0xffff_fff9, 2, 0xffff_ffff),
    (AluOp::Rem, 7, 0xffff_fffe, 1),
    (AluOp::Rem, 0xffff_fff9, 0, 0xffff_fff9),
    (AluOp::Remu, 7, 0, 7),
    (AluOp::Remu, 0xffff_fff9, 2, 1),
];

// A condition, its operands and whether it holds.
const OUTCOMES: [(Cond, u32, u32, bool); 10] = [
    (Cond::Eq, 5, 5, true),
    (Cond::Eq, 5, 6, false),
    (Cond::Ne, 5, 6, true),
    (Cond::Lt, 0xffff_ffff, 0, true),
    (Cond::Lt, 5, 5, false),
    (Cond::Ge, 0xffff_ffff, 0, false),
    (Cond::Ge, 5, 5, true),
    (Cond::Ltu, 0xffff_ffff, 0, false),
    (Cond::Geu, 0xffff_ffff, 0, true),
    (Cond::Geu, 5, 6, false),
];

#[test]
fn worked_values(rt: HostRuntime) {
    for (op, a, b, expected) in RESULTS.iter() {
        assert_eq!(rt; alu(*op, *a, *b), *expected);
    }
    for (cond, a, b, expected) in OUTCOMES.iter() {
        assert_eq!(rt; test(*cond, *a, *b), *expected);
    }
    assert_eq!(rt; extend(0x1234_5680, 1, true), 0xffff_ff80);
    assert_eq!(rt; extend(0x1234_5680, 1, false), 0x80);
    assert_eq!(rt; extend(0x1234_8000, 2, true), 0xffff_8000);
    assert_eq!(rt; extend(0x1234_8000, 2, false), 0x8000);
    assert_eq!(rt; extend(0x8234_5680, 4, true), 0x8234_5680);
}
