// Figures and places in document 01's bytes: each claim the contract of a function that does nothing.
ghost use Rattle.layout.specs.Claims.{SizesClaim, AllowedClaim, FreshLayoutClaim, PlacesClaim};

// The five sector sizes, and that the bytes of their blocks are these rounded up to a multiple of 64.
pub fn sector_sizes()
    ensures sector_sizes { SizesClaim }
{}

// The length and the figures that the tests let pass are those of the table, row by row.
pub fn allowed_figures()
    ensures allowed_figures { AllowedClaim }
{}

// Making works out a start at 4,096 for the data and the least multiple of 4,096 that fits for each later part.
pub fn fresh_layout()
    ensures fresh_layout { FreshLayoutClaim }
{}

// Where the words of blocks, map and flog stand, in bytes.
pub fn places()
    ensures places { PlacesClaim }
{}
