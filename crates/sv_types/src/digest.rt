// Digests.

/// The bytes of a digest.
pub const DIGEST_BYTES: usize = 32;

/// A SHA-256 digest (FIPS 180-4): of a page, of the digests of pages one after another, or of a masked module.
pub type Digest = [u8; DIGEST_BYTES];
