//! What a word says.

/// The number that a word gives, or 1, and no more than a million.
pub fn number(word: Option<&&str>) -> u32 {
    word.and_then(|text| text.parse::<u32>().ok())
        .unwrap_or(1)
        .clamp(0, 1_000_000)
}
