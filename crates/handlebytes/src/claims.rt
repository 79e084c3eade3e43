// The claim about the bytes of a handle and of a record, as the contract of a function that does nothing.
ghost use Rattle.handlebytes.specs.Claims.{BytesClaim};

// Where each number of a handle and of a record stands; bytes stand for the handle that was stored in them, and zeroes for the one of zeroes.
pub fn bytes()
    ensures bytes { BytesClaim }
{}
