//! What one version of a type reads of what the other writes: exactly one value, from all of the octets.

ghost use Rattle.asn1_laws_versions.specs.ExactLaws.{OlderReadsExactly, NewerReadsExactly};

/// The older version reads what the newer one writes as a value exactly if this is the written value without what the
/// older version lacks and, in the strict rules, in normal form. It reads all of the octets, and no other prefix,
/// whatever follows.
pub fn older_reads_exactly()
    ensures { OlderReadsExactly }
{}

/// The newer version reads what the older one writes as a value exactly if this is the same value, with everything
/// absent that only the newer version has. It reads all of the octets, and no other prefix, whatever follows.
pub fn newer_reads_exactly()
    ensures { NewerReadsExactly }
{}
