//! The first line of YUV4MPEG2: words, each a letter with its value behind it.

/// The samples that are read: 4:2:0 with 8 bits, whatever the place of chroma.
const COLOURS: [&[u8]; 4] = [b"420", b"420jpeg", b"420mpeg2", b"420paldv"];

/// The most digits of a width or a height.
const DIGITS: usize = 9;

/// How many columns and rows of luma samples a picture has, as the first line says.
#[derive(Clone, Copy)]
pub struct StatedSize {
    pub width: u64,
    pub height: u64,
}

/// The size of a picture by this line: none where it does not say it, or where the samples are not
/// 4:2:0 with 8 bits. Without a word for the samples they are.
pub(crate) fn stated_size(line: &[u8]) -> Option<StatedSize> {
    let width = number(word(line, b'W')?)?;
    let height = number(word(line, b'H')?)?;
    if let Some(colour) = word(line, b'C') {
        if !is_taken(colour) {
            return None;
        }
    }
    Some(StatedSize { width, height })
}

/// How many samples a picture of this size has.
pub(crate) fn picture_len(size: StatedSize) -> u64 {
    let StatedSize { width, height } = size;
    let chroma = width.div_ceil(2).saturating_mul(height.div_ceil(2));
    let luma = width.saturating_mul(height);
    luma.saturating_add(chroma).saturating_add(chroma)
}

fn is_taken(colour: &[u8]) -> bool {
    'colours: for taken in COLOURS {
        if colour == taken {
            return true;
        }
    }
    false
}

// The value of the first word with this letter.
fn word(line: &[u8], letter: u8) -> Option<&[u8]> {
    'places: for place in 1..line.len() {
        if line[place - 1] == b' ' && line[place] == letter {
            return Some(first_word(&line[place + 1..]));
        }
    }
    None
}

// Up to a space.
fn first_word(rest: &[u8]) -> &[u8] {
    'places: for place in 0..rest.len() {
        if rest[place] == b' ' {
            return &rest[..place];
        }
    }
    rest
}

// A number in decimal.
fn number(digits: &[u8]) -> Option<u64> {
    if digits.is_empty() || digits.len() > DIGITS {
        return None;
    }
    let mut number: u64 = 0;
    for digit in digits {
        if !digit.is_ascii_digit() {
            return None;
        }
        let value = u64::from(digit.saturating_sub(b'0'));
        number = number.saturating_mul(10).saturating_add(value);
    }
    Some(number)
}
