//! A word of every row of the table, with its instruction and text.
use super::*;
use std::test::Fail;

// Words as an assembler gives them, and their texts at address 0x00010054.
const ROWS: [(u32, &str); 52] = [
    (0x8000_0037, "lui zero, 0x80000"),
    (0xffff_ffb7, "lui t6, 0xfffff"),
    (0x1234_5097, "auipc ra, 0x12345"),
    (0x8000_04ef, "jal s1, 0xfff10054"),
    (0x7fff_f06f, "jal zero, 0x00110052"),
    (0x7fe0_08ef, "jal a7, 0x00010852"),
    (0x0000_8067, "jalr zero, 0(ra)"),
    (0x8001_8267, "jalr tp, -2048(gp)"),
    (0x0005_0463, "beq a0, zero, 0x0001005c"),
    (0x8139_1063, "bne s2, s3, 0x0000f054"),
    (0x7f5a_4fe3, "blt s4, s5, 0x00011052"),
    (0xff7b_5fe3, "bge s6, s7, 0x00010052"),
    (0x019c_60e3, "bltu s8, s9, 0x00010854"),
    (0x01bd_7f63, "bgeu s10, s11, 0x00010072"),
    (0x8003_0283, "lb t0, -2048(t1)"),
    (0x7ff4_1383, "lh t2, 2047(s0)"),
    (0xfff1_2e03, "lw t3, -1(sp)"),
    (0x0005_4503, "lbu a0, 0(a0)"),
    (0x400f_5e83, "lhu t4, 1024(t5)"),
    (0x80b6_0023, "sb a1, -2048(a2)"),
    (0x7ed7_1fa3, "sh a3, 2047(a4)"),
    (0xfef8_27a3, "sw a5, -17(a6)"),
    (0xff01_0113, "addi sp, sp, -16"),
    (0x7ff5_a513, "slti a0, a1, 2047"),
    (0x8005_b513, "sltiu a0, a1, -2048"),
    (0xfff5_c513, "xori a0, a1, -1"),
    (0x5556_e613, "ori a2, a3, 1365"),
    (0xaaa7_f713, "andi a4, a5, -1366"),
    (0x01f4_9413, "slli s0, s1, 31"),
    (0x0009_d913, "srli s2, s3, 0"),
    (0x411a_da13, "srai s4, s5, 17"),
    (0x00c5_8533, "add a0, a1, a2"),
    (0x40f7_06b3, "sub a3, a4, a5"),
    (0x0073_12b3, "sll t0, t1, t2"),
    (0x01ee_ae33, "slt t3, t4, t5"),
    (0x0010_3fb3, "sltu t6, zero, ra"),
    (0x0124_c433, "xor s0, s1, s2"),
    (0x015a_59b3, "srl s3, s4, s5"),
    (0x418b_db33, "sra s6, s7, s8"),
    (0x01bd_6cb3, "or s9, s10, s11"),
    (0x0048_f833, "and a6, a7, tp"),
    (0x02c5_8533, "mul a0, a1, a2"),
    (0x02f7_16b3, "mulh a3, a4, a5"),
    (0x0288_a833, "mulhsu a6, a7, s0"),
    (0x0339_34b3, "mulhu s1, s2, s3"),
    (0x036a_ca33, "div s4, s5, s6"),
    (0x039c_5bb3, "divu s7, s8, s9"),
    (0x03cd_ed33, "rem s10, s11, t3"),
    (0x03ff_7eb3, "remu t4, t5, t6"),
    (0x0310_000f, "fence"),
    (0x0000_0073, "ecall"),
    (0x0010_0073, "ebreak"),
];

const NOT_INSTRUCTIONS: [u32; 18] = [
    0x0000_0000, // no opcode
    0xffff_ffff,
    0x0000_8082, // C.JR
    0x0000_9067, // JALR with funct3 1
    0x0000_2063, // BRANCH with funct3 2
    0x0000_3003, // LD
    0x0000_6003, // LWU
    0x0000_3023, // SD
    0x0200_1013, // SLLI of a doubleword
    0x4000_1013, // SLLI with funct7 0x20
    0x2000_5013, // SRLI with funct7 0x10
    0x4000_1033, // SLL with funct7 0x20
    0x0400_0033, // OP with funct7 2
    0x0000_100f, // FENCE.I
    0x3020_0073, // MRET
    0x0000_1073, // CSRRW
    0x0000_00f3, // ECALL with rd 1
    0x0020_0073, // URET
];

#[test]
fn rows_are_read_written_and_printed(rt: HostRuntime) -> Result<(), Fail> {
    for (word, expected) in ROWS.iter() {
        let instr = decode(*word).ok_or("the word is an instruction")?;
        let text = text_of(rt.alloc(), instr, 0x0001_0054)?;
        assert_eq!(rt; text.as_str(), *expected);
        assert_eq!(rt; encode(instr), *word);
    }
    for word in NOT_INSTRUCTIONS.iter() {
        assert!(rt; decode(*word).is_none());
    }
    Ok(())
}
