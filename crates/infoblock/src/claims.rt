// The info block in document 01's bytes: each claim the contract of a function that does nothing.
ghost use Rattle.infoblock.specs.Claims.{FieldsClaim, SoundClaim, FreshBlockClaim};

// At which byte each field stands, and which fields are allowed.
pub fn info_fields()
    ensures info_fields { FieldsClaim }
{}

// When a block is sound, and which of two counts.
pub fn sound_blocks()
    ensures sound_blocks { SoundClaim }
{}

// Every byte of a made info block.
pub fn fresh_blocks()
    ensures fresh_blocks { FreshBlockClaim }
{}
