//! Files with changed headers and symbols, and what is answered of each.
use super::*;
use std::alloc::{AllocError, Global};
use std::test::*;

// The word at an offset is changed to another.
type Edit = (usize, u32);

// An edit that changes nothing: the magic number.
const SAME: Edit = (0, 0x464c_457f);

// One segment of one instruction, `jalr zero, 0(ra)`.
const SMALL: [u32; 22] = [
    0x464c_457f,
    0x0001_0101,
    0,
    0,
    0x00f3_0002,
    1,
    0x0001_0054,
    52,
    0,
    0,
    0x0020_0034,
    1,
    0,
    1,
    84,
    0x0001_0054,
    0x0001_0054,
    4,
    4,
    5,
    4,
    0x0000_8067,
];

// The same instruction, 128 bytes of zeros to read and write, and the symbols `routine`, `buf` and
// `work`: the ELF header, two program headers, the code, the symbols, their names, the sections.
const NAMED: [u32; 81] = [
    0x464c_457f,
    0x0001_0101,
    0,
    0,
    0x00f3_0002,
    1,
    0x0001_0074,
    52,
    204,
    0,
    0x0020_0034,
    0x0028_0002,
    3,
    1,
    116,
    0x0001_0074,
    0x0001_0074,
    4,
    4,
    5,
    4,
    1,
    120,
    0x0010_0000,
    0x0010_0000,
    0,
    128,
    6,
    4,
    0x0000_8067,
    0,
    0,
    0,
    0,
    1,
    0x0001_0074,
    0,
    0xfff1_0010,
    9,
    0x0010_0000,
    0,
    0xfff1_0010,
    13,
    0x0010_0040,
    0,
    0xfff1_0010,
    0x756f_7200,
    0x656e_6974,
    0x6675_6200,
    0x726f_7700,
    0x6b,
    0,
    0,
    0,
    0,
    0,
    0,
    0,
    0,
    0,
    0,
    0,
    2,
    0,
    0,
    120,
    64,
    2,
    1,
    4,
    16,
    0,
    3,
    0,
    0,
    184,
    18,
    0,
    0,
    1,
    0,
];

fn edited(alloc: Global, words: &[u32], edits: &[Edit; 2]) -> Result<Vec<u8>, AllocError> {
    let mut file = Vec::new(alloc);
    for (index, word) in words.iter().enumerate() {
        let mut word = *word;
        for (at, changed) in edits {
            if at / 4 == index {
                word = *changed;
            }
        }
        file.extend_from_slice(&word.to_le_bytes())?;
    }
    Ok(file)
}

fn with_bytes(
    alloc: Global,
    file: &[u8],
    first: usize,
    last: usize,
    value: u8,
) -> Result<Vec<u8>, AllocError> {
    let mut changed = Vec::new(alloc);
    for (at, byte) in file.iter().enumerate() {
        let inside = first <= at && at <= last;
        changed.push(if inside { value } else { *byte })?;
    }
    Ok(changed)
}

fn refusal_of(alloc: Global, file: &[u8]) -> Option<ElfRefusal> {
    match load(alloc, file) {
        Ok(_) => None,
        Err(refusal) => Some(refusal),
    }
}

fn refusal_of_front(alloc: Global, file: &[u8], count: usize) -> Option<ElfRefusal> {
    match file.get(..count) {
        Some(front) => refusal_of(alloc, front),
        None => None,
    }
}

// Edits of `SMALL`, and the first rule that then fails.
const SMALL_ROWS: [([Edit; 2], Option<ElfRefusal>); 27] = [
    ([SAME, SAME], None),
    ([SAME, (0, 0x464c_457e)], Some(ElfRefusal::Magic)),
    ([(4, 0x0001_0102), SAME], Some(ElfRefusal::Class)),
    ([(4, 0x0001_0201), SAME], Some(ElfRefusal::Order)),
    ([(4, 0x0002_0101), SAME], Some(ElfRefusal::Version)),
    ([(20, 2), SAME], Some(ElfRefusal::Version)),
    ([(16, 0x00f3_0003), SAME], Some(ElfRefusal::Kind)),
    ([(16, 0x003e_0002), SAME], Some(ElfRefusal::Machine)),
    ([(36, 1), SAME], Some(ElfRefusal::Compressed)),
    ([(36, 2), SAME], None),
    // e_phnum 0 and 65, e_phentsize 33, e_phoff one byte too high, and near 2^32
    ([(44, 0), SAME], Some(ElfRefusal::Table)),
    ([(44, 65), SAME], Some(ElfRefusal::Table)),
    ([(40, 0x0021_0034), SAME], Some(ElfRefusal::Table)),
    ([(28, 57), SAME], Some(ElfRefusal::Table)),
    ([(28, 0xffff_ffe0), SAME], Some(ElfRefusal::Table)),
    ([(52, 2), SAME], Some(ElfRefusal::Dynamic)),
    ([(52, 3), SAME], Some(ElfRefusal::Dynamic)),
    // fewer bytes in memory than in the file; bytes past the file's end; sums past 2^32
    ([(72, 3), SAME], Some(ElfRefusal::Segment(0))),
    ([(56, 85), SAME], Some(ElfRefusal::Segment(0))),
    ([(56, 0xffff_fffe), SAME], Some(ElfRefusal::Segment(0))),
    ([(60, 0xffff_fffd), SAME], Some(ElfRefusal::Segment(0))),
    // up to 2^32, and no bytes of the file
    ([(60, 0xffff_fffc), SAME], None),
    ([(56, 0xffff_ffff), (68, 0)], None),
    ([(72, 0x0100_0000), SAME], None),
    ([(72, 0x0100_0001), SAME], Some(ElfRefusal::Large)),
    // two rules fail
    (
        [(4, 0x0001_0102), (16, 0x003e_0002)],
        Some(ElfRefusal::Class),
    ),
    ([(16, 0x003e_0002), (36, 1)], Some(ElfRefusal::Machine)),
];

// Edits of `NAMED`, and the first rule that then fails.
const NAMED_ROWS: [([Edit; 2], Option<ElfRefusal>); 9] = [
    ([SAME, SAME], None),
    // the second segment begins at the first one's last address, and behind it
    ([(92, 0x0001_0077), SAME], Some(ElfRefusal::Overlap(0, 1))),
    ([(92, 0x0001_0078), SAME], None),
    ([(100, 129), SAME], Some(ElfRefusal::Segment(1))),
    // the index counts a header of another type
    ([(52, 4), (92, 0xffff_fff0)], Some(ElfRefusal::Segment(1))),
    ([(104, 0x00ff_fffd), SAME], Some(ElfRefusal::Large)),
    // two rules fail
    ([(72, 3), (84, 2)], Some(ElfRefusal::Dynamic)),
    ([(72, 3), (92, 0x0001_0076)], Some(ElfRefusal::Segment(0))),
    (
        [(92, 0x0001_0077), (104, 0x0100_0000)],
        Some(ElfRefusal::Overlap(0, 1)),
    ),
];

#[test]
fn refuses_for_the_first_rule(rt: HostRuntime) -> Result<(), Fail> {
    let alloc = rt.alloc();
    let small = edited(alloc, &SMALL, &[SAME, SAME])?;
    assert_eq!(rt;
        refusal_of_front(alloc, &small, 51),
        Some(ElfRefusal::Short)
    );
    assert_eq!(rt;
        refusal_of_front(alloc, &small, 87),
        Some(ElfRefusal::Segment(0))
    );
    for (edits, refusal) in &SMALL_ROWS {
        let file = edited(alloc, &SMALL, edits)?;
        assert_eq!(rt; refusal_of(alloc, &file), *refusal, "at {edits:?}");
    }
    for (edits, refusal) in &NAMED_ROWS {
        let file = edited(alloc, &NAMED, edits)?;
        assert_eq!(rt; refusal_of(alloc, &file), *refusal, "at {edits:?}");
    }
    Ok(())
}

// The bytes of `SMALL` from an offset up to another are set to a value, and the first rule that then
// fails. Each byte of the two headers is changed alone once at least.
const BYTE_ROWS: [(usize, usize, u8, Option<ElfRefusal>); 104] = [
    // e_ident
    (0, 0, 0x7e, Some(ElfRefusal::Magic)),
    (1, 1, 0x65, Some(ElfRefusal::Magic)),
    (2, 2, 0x6c, Some(ElfRefusal::Magic)),
    (3, 3, 0x66, Some(ElfRefusal::Magic)),
    (4, 4, 0, Some(ElfRefusal::Class)),
    (5, 5, 0, Some(ElfRefusal::Order)),
    (6, 6, 0, Some(ElfRefusal::Version)),
    (7, 7, 0xff, None),
    (8, 8, 0xff, None),
    (9, 9, 0xff, None),
    (10, 10, 0xff, None),
    (11, 11, 0xff, None),
    (12, 12, 0xff, None),
    (13, 13, 0xff, None),
    (14, 14, 0xff, None),
    (15, 15, 0xff, None),
    // e_type, e_machine, e_version, e_entry
    (16, 16, 1, Some(ElfRefusal::Kind)),
    (17, 17, 1, Some(ElfRefusal::Kind)),
    (18, 18, 0xf2, Some(ElfRefusal::Machine)),
    (19, 19, 1, Some(ElfRefusal::Machine)),
    (20, 20, 0, Some(ElfRefusal::Version)),
    (21, 21, 1, Some(ElfRefusal::Version)),
    (22, 22, 1, Some(ElfRefusal::Version)),
    (23, 23, 1, Some(ElfRefusal::Version)),
    (24, 24, 0xff, None),
    (25, 25, 0xff, None),
    (26, 26, 0xff, None),
    (27, 27, 0xff, None),
    // e_phoff: other bytes of the file are read as a program header, up to its end
    (28, 28, 0, None),
    (28, 28, 0x2c, Some(ElfRefusal::Segment(0))),
    (28, 28, 0x38, None),
    (28, 28, 0x39, Some(ElfRefusal::Table)),
    (29, 29, 1, Some(ElfRefusal::Table)),
    (30, 30, 1, Some(ElfRefusal::Table)),
    (31, 31, 0xff, Some(ElfRefusal::Table)),
    (28, 31, 0xff, Some(ElfRefusal::Table)),
    // e_shoff, e_flags, e_ehsize
    (32, 32, 0xff, None),
    (33, 33, 0xff, None),
    (34, 34, 0xff, None),
    (35, 35, 0xff, None),
    (36, 36, 1, Some(ElfRefusal::Compressed)),
    (36, 36, 0xfe, None),
    (37, 37, 0xff, None),
    (38, 38, 0xff, None),
    (39, 39, 0xff, None),
    (40, 40, 0xff, None),
    (41, 41, 0xff, None),
    // e_phentsize, e_phnum, e_shentsize, e_shnum, e_shstrndx
    (42, 42, 0x1f, Some(ElfRefusal::Table)),
    (42, 42, 0x21, Some(ElfRefusal::Table)),
    (43, 43, 1, Some(ElfRefusal::Table)),
    (44, 44, 0, Some(ElfRefusal::Table)),
    (44, 44, 2, Some(ElfRefusal::Table)),
    (45, 45, 1, Some(ElfRefusal::Table)),
    (46, 46, 0xff, None),
    (47, 47, 0xff, None),
    (48, 48, 0xff, None),
    (49, 49, 0xff, None),
    (50, 50, 0xff, None),
    (51, 51, 0xff, None),
    // p_type
    (52, 52, 0, None),
    (52, 52, 2, Some(ElfRefusal::Dynamic)),
    (52, 52, 3, Some(ElfRefusal::Dynamic)),
    (52, 52, 4, None),
    (53, 53, 1, None),
    (54, 54, 1, None),
    (55, 55, 1, None),
    // p_offset
    (56, 56, 0x53, None),
    (56, 56, 0x55, Some(ElfRefusal::Segment(0))),
    (57, 57, 1, Some(ElfRefusal::Segment(0))),
    (58, 58, 1, Some(ElfRefusal::Segment(0))),
    (59, 59, 0xff, Some(ElfRefusal::Segment(0))),
    (56, 59, 0xff, Some(ElfRefusal::Segment(0))),
    // p_vaddr, p_paddr
    (60, 60, 0xff, None),
    (61, 61, 0xff, None),
    (62, 62, 0xff, None),
    (63, 63, 0xff, None),
    (60, 63, 0xff, Some(ElfRefusal::Segment(0))),
    (64, 64, 0xff, None),
    (65, 65, 0xff, None),
    (66, 66, 0xff, None),
    (67, 67, 0xff, None),
    // p_filesz
    (68, 68, 3, None),
    (68, 68, 5, Some(ElfRefusal::Segment(0))),
    (69, 69, 1, Some(ElfRefusal::Segment(0))),
    (70, 70, 1, Some(ElfRefusal::Segment(0))),
    (71, 71, 0xff, Some(ElfRefusal::Segment(0))),
    (68, 71, 0xff, Some(ElfRefusal::Segment(0))),
    // p_memsz, then with p_filesz: sums past 2^32
    (72, 72, 3, Some(ElfRefusal::Segment(0))),
    (72, 72, 5, None),
    (73, 73, 0xff, None),
    (74, 74, 0xff, None),
    (75, 75, 1, Some(ElfRefusal::Large)),
    (75, 75, 0xff, Some(ElfRefusal::Large)),
    (74, 75, 0xff, Some(ElfRefusal::Segment(0))),
    (72, 75, 0xff, Some(ElfRefusal::Segment(0))),
    (68, 75, 0xff, Some(ElfRefusal::Segment(0))),
    // p_flags, p_align
    (76, 76, 0xff, None),
    (77, 77, 0xff, None),
    (78, 78, 0xff, None),
    (79, 79, 0xff, None),
    (80, 80, 0xff, None),
    (81, 81, 0xff, None),
    (82, 82, 0xff, None),
    (83, 83, 0xff, None),
];

#[test]
fn looks_at_every_header_byte(rt: HostRuntime) -> Result<(), Fail> {
    let alloc = rt.alloc();
    let small = edited(alloc, &SMALL, &[SAME, SAME])?;
    for (first, last, value, refusal) in &BYTE_ROWS {
        let file = with_bytes(alloc, &small, *first, *last, *value)?;
        assert_eq!(rt;
            refusal_of(alloc, &file),
            *refusal,
            "at {first} to {last}: {value}"
        );
    }
    Ok(())
}

// Edits of `NAMED`, how many symbols are kept then, and the address of `buf`.
const SYMBOL_ROWS: [([Edit; 2], usize, Option<u32>); 23] = [
    ([SAME, SAME], 3, Some(0x0010_0000)),
    // `routine` is renamed: local, then weak, before the global one; then the global one is local
    ([(136, 9), (148, 0xfff1_0000)], 3, Some(0x0010_0000)),
    ([(136, 9), (148, 0xfff1_0020)], 3, Some(0x0001_0074)),
    ([(164, 0xfff1_0000), SAME], 3, Some(0x0010_0000)),
    ([(164, 0xfff1_0030), (136, 9)], 3, Some(0x0001_0074)),
    // a section's and a file's name, and an undefined one
    ([(164, 0xfff1_0013), SAME], 2, None),
    ([(164, 0xfff1_0014), SAME], 2, None),
    ([(164, 0x0000_0010), SAME], 2, None),
    // the string section ends in `buf`, and behind its zero byte
    ([(304, 12), SAME], 1, None),
    ([(304, 13), SAME], 2, Some(0x0010_0000)),
    // an empty name, and one that isn't UTF-8
    ([(152, 8), SAME], 2, None),
    ([(192, 0x66ff_6200), SAME], 2, None),
    // damaged tables
    ([(280, 24), SAME], 0, None),
    ([(44, 0x0029_0002), SAME], 0, None),
    ([(268, 3), SAME], 0, None),
    ([(268, 1), SAME], 0, None),
    ([(288, 1), SAME], 0, None),
    ([(32, 205), SAME], 0, None),
    ([(32, 0xffff_ff88), SAME], 0, None),
    ([(264, 0xffff_fff0), SAME], 0, None),
    ([(300, 0xffff_fff0), SAME], 0, None),
    ([(208, 2), SAME], 0, None),
    // 63 bytes are three entries
    ([(264, 63), SAME], 2, Some(0x0010_0000)),
];

#[test]
fn keeps_segments_and_symbols(rt: HostRuntime) -> Result<(), Fail> {
    let alloc = rt.alloc();
    let file = edited(alloc, &NAMED, &[SAME, SAME])?;
    let elf = load(alloc, &file)?;
    assert_eq!(rt; elf.entry, 0x0001_0074);
    assert_eq!(rt; elf.symbol("routine"), Some(0x0001_0074));
    assert_eq!(rt; elf.symbol("work"), Some(0x0010_0040));
    assert_eq!(rt; elf.symbol("wor"), None);
    let segments = elf.segments.as_slice();
    assert_eq!(rt; segments.len(), 2);
    let code = &segments[0];
    assert_eq!(rt; code.address, 0x0001_0074);
    assert_eq!(rt; code.bytes.as_slice(), [0x67, 0x80, 0, 0].as_slice());
    assert_eq!(rt; (code.read, code.write, code.exec), (true, false, true));
    let data = &segments[1];
    assert_eq!(rt; data.address, 0x0010_0000);
    assert_eq!(rt; data.bytes.as_slice(), [0; 128].as_slice());
    assert_eq!(rt; (data.read, data.write, data.exec), (true, true, false));
    for (edits, count, address) in &SYMBOL_ROWS {
        let file = edited(alloc, &NAMED, edits)?;
        let elf = load(alloc, &file)?;
        assert_eq!(rt; elf.symbols.len(), *count, "at {edits:?}");
        assert_eq!(rt; elf.symbol("buf"), *address, "at {edits:?}");
    }
    Ok(())
}
