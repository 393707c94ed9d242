// Words by number.

use sso_base::Word;

/// The word with this number in its last four bytes; the others are zero.
pub fn word(number: u32) -> Word {
    let mut bytes = [0; 32];
    bytes[28..].copy_from_slice(&number.to_be_bytes());
    Word::new(bytes)
}

/// The random words of the request at this place, from 1: those with the numbers from 4p - 3 to 4p.
pub fn words_of_place(place: u32) -> [Word; 4] {
    let last = place.wrapping_mul(4);
    [
        word(last.wrapping_sub(3)),
        word(last.wrapping_sub(2)),
        word(last.wrapping_sub(1)),
        word(last),
    ]
}
