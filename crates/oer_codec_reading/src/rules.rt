//! The choice between OER and COER.
ghost use Rattle.std.specs.Prelude.{◌≡◌, not};
ghost use Rattle.oer_codec_reading.specs.Fronts.{is_basic};

/// Basic or canonical octet encoding rules, OER or COER (X.696).
#[derive(Clone, Copy, Debug, PartialEq, Eq, PartialOrd, Ord)]
pub enum EncodingRules {
    /// OER: a decoder accepts all forms.
    Oer,
    /// COER: a decoder accepts only the canonical forms, except for the freedoms of strict rules.
    Coer,
}

impl EncodingRules {
    /// Whether these are OER.
    #[inline(always)]
    pub fn is_oer(self) -> bool
        ensures { result ≡ is_basic self }
    {
        match self {
            EncodingRules::Oer => true,
            EncodingRules::Coer => false,
        }
    }

    /// Whether these are COER.
    #[inline(always)]
    pub fn is_coer(self) -> bool
        ensures { result ≡ not (is_basic self) }
    {
        !self.is_oer()
    }
}
