//! What a journal reads as.

use crate::records::Payload;

/// The payloads of its image, and the record that stands behind it.
#[derive(Debug, Drop)]
pub struct Contents {
    /// Of the records that count, in their order.
    pub payloads: Vec<Payload>,
    /// Of the record that stands whole behind a gate which is neither closed nor open; a crash may yet make it count.
    pub pending: Option<Payload>,
}
