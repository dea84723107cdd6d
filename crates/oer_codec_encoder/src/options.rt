//! Options of encoders.

/// Options of an encoder. COER is the only canonical form of OER, so there is nothing to choose.
#[derive(Clone, Copy, Debug, Default)]
pub struct EncoderOptions {}

impl EncoderOptions {
    /// The canonical octet encoding rules.
    pub fn coer() -> Self {
        EncoderOptions {}
    }
}
