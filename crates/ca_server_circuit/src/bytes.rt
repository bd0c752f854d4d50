//! A fact about slices of bytes that proofs need.
ghost use Rattle.ca_dbr.specs.Octets.{AreBytes};

/// Each element of a slice of bytes is a byte.
pub(crate) fn know_bytes(bytes: &[u8])
    ensures { AreBytes bytes.now }
{}
