// The checksum in document 01's sums: the contract of a function that does nothing.
ghost use Rattle.fletcher.specs.Claims.{ChecksumClaim};

// The checksum is made of two plain sums, and an info block's takes all 1,024 words with the checksum field as zero.
pub fn checksums()
    ensures checksums { ChecksumClaim }
{}
