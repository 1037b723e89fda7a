// Whole numbers in decimal, as the words of a call have them.

// A number that is read from a word, up to the first byte that is no larger than a space; 0 from an empty word.
pub trait Number: Copy {
    fn read(word: &[u8]) -> Self;
}

// A number with a digit more, modulo 2^64; a minus is no digit.
fn with_digit(size: u64, byte: u8) -> u64 {
    if byte == b'-' {
        return size;
    }
    size.wrapping_mul(10).wrapping_add(u64::from(byte % 16))
}

// Modulo 2^64, without a sign.
impl Number for u64 {
    fn read(word: &[u8]) -> u64 {
        word.iter()
            .take_while(|byte| **byte > b' ')
            .fold(0, |size, byte| with_digit(size, *byte))
    }
}

// Modulo 2^64, in two's complement.
impl Number for i64 {
    fn read(word: &[u8]) -> i64 {
        u64::read(word).cast_signed()
    }
}

// Modulo 2^32.
impl Number for u32 {
    fn read(word: &[u8]) -> u32 {
        (u64::read(word) % 4294967296) as u32
    }
}

// Modulo 2^16.
impl Number for u16 {
    fn read(word: &[u8]) -> u16 {
        (u64::read(word) % 65536) as u16
    }
}

// A whole number modulo 2^16.
impl Number for f32 {
    fn read(word: &[u8]) -> f32 {
        f32::from(u16::read(word))
    }
}

// One that may have a minus; −2^31 where it is no number of 31 bits and a sign.
impl Number for i32 {
    fn read(word: &[u8]) -> i32 {
        match i32::try_from(u64::read(word)) {
            Ok(size) if word.starts_with(b"-") => -size,
            Ok(size) => size,
            Err(_) => i32::MIN,
        }
    }
}
