//! Decimal texts with known values.
use micro_num::{NumFault, Unit, ceil_div, one_spelling, read_front, read_micro};
use std::alloc::{AllocError, Global};
use test_meshes::published::{FARTHEST, INCH, MILLIMETRE};

#[test]
fn spellings(rt: HostRuntime) {
    let rows: [(&[u8], Result<i32, NumFault>); 21] = [
        (b"0.0005", Ok(1)),
        (b"-0.0005", Ok(-1)),
        (b"4.9999E-4", Ok(0)),
        (b"2.648000e-002", Ok(26)),
        (b"0e99999999999", Ok(0)),
        (b"1.", Ok(1000)),
        (b"+.5", Ok(500)),
        (b"8000.0004", Ok(8000 * MILLIMETRE)),
        (b"8000.0005", Ok(8000 * MILLIMETRE + 1)),
        (b"128000.0004", Ok(FARTHEST)),
        (b"-128000.0004", Ok(-FARTHEST)),
        (b"128000.0005", Err(NumFault::OutOfRange)),
        (b"-128000.0005", Err(NumFault::OutOfRange)),
        (b"1e99999999999", Err(NumFault::OutOfRange)),
        (b".", Err(NumFault::NotNumber)),
        (b"1e", Err(NumFault::NotNumber)),
        (b"1,5", Err(NumFault::NotNumber)),
        (b"nan", Err(NumFault::NotNumber)),
        (b"", Err(NumFault::NotNumber)),
        (b"1.2.3", Err(NumFault::NotNumber)),
        (b"+-1", Err(NumFault::NotNumber)),
    ];
    for (word, wanted) in rows {
        assert!(rt; read_micro(word, Unit::Millimetre) == wanted);
    }
}

#[test]
fn numbers_at_the_front(rt: HostRuntime) {
    let rows: [(&[u8], Option<(i32, usize)>); 9] = [
        (
            b"1.422800e+01 5.552000e+01",
            Some((14 * MILLIMETRE + 228, 12)),
        ),
        (b"-0.0533 0", Some((-53, 7))),
        (
            b"123456789012.25e-8 and more",
            Some((1234 * MILLIMETRE + 568, 18)),
        ),
        (b"1.5.5", Some((1500, 3))),
        (b"1e9 2 3 4 5 6 7", None),
        (b"x", None),
        // nine digits are few, and ten are not
        (
            b"-000000001.987654321e-000000001 and more",
            Some((-199, 31)),
        ),
        (
            b"0000000001.9876543210e-0000000001 and more",
            Some((199, 33)),
        ),
        (b"000128000.000500000e+000000000 and more", None),
    ];
    for (text, wanted) in rows {
        assert!(rt; read_front(text, Unit::Millimetre) == wanted);
    }
}

#[test]
fn inches(rt: HostRuntime) {
    let rows: [(&[u8], Result<i32, NumFault>); 8] = [
        (b"1", Ok(INCH)),
        (b"0.0001", Ok(3)),
        (b"0.0025", Ok(64)),
        (b"-0.0025", Ok(-64)),
        (b"5039.37", Ok(FARTHEST - 2)),
        (b"5039.37008", Ok(FARTHEST)),
        (b"5039.3701", Err(NumFault::OutOfRange)),
        (b"nan", Err(NumFault::NotNumber)),
    ];
    for (word, wanted) in rows {
        assert!(rt; read_micro(word, Unit::Inch) == wanted);
    }
}

#[test]
fn centimetres_and_metres(rt: HostRuntime) {
    let rows: [(&[u8], Unit, Result<i32, NumFault>); 8] = [
        (b"1.5", Unit::Centimetre, Ok(15 * MILLIMETRE)),
        (b"-0.00005", Unit::Centimetre, Ok(-1)),
        (b"12800.00004", Unit::Centimetre, Ok(FARTHEST)),
        (b"12800.00005", Unit::Centimetre, Err(NumFault::OutOfRange)),
        (b"0.0505", Unit::Metre, Ok(50 * MILLIMETRE + 500)),
        (b"5e-7", Unit::Metre, Ok(1)),
        (b"-128.0000004", Unit::Metre, Ok(-FARTHEST)),
        (b"128.0000005", Unit::Metre, Err(NumFault::OutOfRange)),
    ];
    for (word, unit, wanted) in rows {
        assert!(rt; read_micro(word, unit) == wanted);
    }
}

/// `front`, a row of one byte, and `back`.
pub(crate) fn long_word(
    alloc: Global,
    front: &[u8],
    byte: u8,
    count: usize,
    back: &[u8],
) -> Result<Vec<u8>, AllocError> {
    let mut word = Vec::new(alloc);
    word.extend_from_slice(front)?;
    for _ in 0..count {
        word.push(byte)?;
    }
    word.extend_from_slice(back)?;
    Ok(word)
}

/// Whether such a word is read so.
fn is_long_read(
    alloc: Global,
    front: &[u8],
    byte: u8,
    (count, back): (usize, &[u8]),
    unit: Unit,
    wanted: Result<i32, NumFault>,
) -> bool {
    match long_word(alloc, front, byte, count, back) {
        Ok(word) => read_micro(&word, unit) == wanted,
        Err(AllocError) => false,
    }
}

#[test]
fn long_words(rt: HostRuntime) {
    let millimetres: [(&[u8], u8, usize, &[u8], Result<i32, NumFault>); 11] = [
        (b"", b'0', 255, b"", Ok(0)),
        (b"", b'0', 256, b"", Err(NumFault::TooLong)),
        (b"0e", b'9', 253, b"", Ok(0)),
        (b"1e-", b'9', 252, b"", Ok(0)),
        (b"1e", b'9', 253, b"", Err(NumFault::OutOfRange)),
        (b"1", b'0', 240, b"e-240", Ok(1000)),
        (b"0.", b'0', 240, b"1e241", Ok(1000)),
        (b"0.", b'0', 240, b"5e237", Ok(1)),
        (b"0.00049", b'9', 240, b"", Ok(0)),
        // a length is looked at before letters
        (b"", b'a', 255, b"", Err(NumFault::NotNumber)),
        (b"", b'a', 256, b"", Err(NumFault::TooLong)),
    ];
    for (front, byte, count, back, wanted) in millimetres {
        assert!(rt;
            is_long_read(
                rt.alloc(),
                front,
                byte,
                (count, back),
                Unit::Millimetre,
                wanted
            )
        );
    }
    let inches: [(&[u8], u8, i32); 2] = [(b"0.0025", b'0', 64), (b"0.00249", b'9', 63)];
    for (front, digit, wanted) in inches {
        assert!(rt; is_long_read(rt.alloc(), front, digit, (240, b""), Unit::Inch, Ok(wanted)));
    }
}

/// What is read at the front of a word and this many blanks.
fn front_of(
    alloc: Global,
    word: &[u8],
    blanks: usize,
    unit: Unit,
) -> Result<Option<(i32, usize)>, AllocError> {
    let text = long_word(alloc, word, b' ', blanks, b"")?;
    Ok(read_front(&text, unit))
}

/// Whether `word` is read in the same way if a long text follows it, if a short one does, and by itself.
fn is_read_alike(alloc: Global, word: &[u8], unit: Unit) -> bool {
    let (Ok(far), Ok(near)) = (
        front_of(alloc, word, 40, unit),
        front_of(alloc, word, 1, unit),
    ) else {
        return false;
    };
    let whole = match read_micro(word, unit) {
        Ok(z) => far == Some((z, word.len())),
        Err(_) => true,
    };
    whole && far == near
}

/// Before the point of a word, and behind it.
const BEFORE: &[u8; 20] = b"00000000000000012345";

const BEHIND: &[u8; 20] = b"98765432101234567890";

/// The ends of words.
const TAILS: [&[u8]; 7] = [
    b"",
    b"e0",
    b"E-03",
    b"e+01",
    b"e-000000002",
    b"e-0000000002",
    b"e",
];

/// A word with this many digits before and behind its point.
fn word_of(
    alloc: Global,
    whole: usize,
    fraction: usize,
    tail: &[u8],
) -> Result<Vec<u8>, AllocError> {
    let mut word = Vec::new(alloc);
    if fraction % 2 == 1 {
        word.push(b'-')?;
    }
    word.extend_from_slice(&BEFORE[20 - whole.min(20)..])?;
    if whole != fraction {
        word.push(b'.')?;
    }
    word.extend_from_slice(&BEHIND[..fraction.min(20)])?;
    word.extend_from_slice(tail)?;
    Ok(word)
}

/// Whether a word is read alike in each unit.
fn is_read_alike_in_units(alloc: Global, word: &[u8]) -> bool {
    let units = [Unit::Millimetre, Unit::Inch, Unit::Centimetre, Unit::Metre];
    units.iter().all(|&unit| is_read_alike(alloc, word, unit))
}

/// Whether such a word is read alike in each unit.
fn is_word_read_alike(alloc: Global, whole: usize, fraction: usize, tail: &[u8]) -> bool {
    match word_of(alloc, whole, fraction, tail) {
        Ok(word) => is_read_alike_in_units(alloc, &word),
        Err(AllocError) => false,
    }
}

#[test]
fn every_length_of_digits(rt: HostRuntime) {
    for whole in 0..21 {
        for fraction in 0..21 {
            for tail in &TAILS {
                assert!(rt; is_word_read_alike(rt.alloc(), whole, fraction, tail));
            }
        }
    }
}

#[test]
fn every_byte_at_every_place(rt: HostRuntime) {
    let usual = *b"-123.4567891e+01";
    for place in 0..16 {
        for byte in 0..=255 {
            let mut word = usual;
            word[place] = byte;
            assert!(rt; is_read_alike_in_units(rt.alloc(), &word));
        }
    }
}

#[test]
fn ceilings(rt: HostRuntime) {
    assert!(rt; ceil_div(-7, 2) == -3);
    assert!(rt; ceil_div(7, 2) == 4);
    assert!(rt; ceil_div(6, 2) == 3);
}

#[test]
fn numbers_of_faults(rt: HostRuntime) {
    assert!(rt;
        NumFault::NotNumber as u8 == 1
            && NumFault::TooLong as u8 == 2
            && NumFault::OutOfRange as u8 == 3
    );
    one_spelling();
}
