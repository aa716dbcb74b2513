//! The law of the halfwords, as the contract of a function without arguments.

ghost use Rattle.thumb_words.specs.Codes.{CodesDecode};

/// The halfwords of an operation are decoded to that operation.
pub fn codes_decode()
    ensures { CodesDecode }
{}
