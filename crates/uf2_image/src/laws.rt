//! The laws of images and their files, each the contract of a function without arguments.

ghost use Rattle.uf2_image.specs.Writing.{WhatIsReadCanBeWritten, WhatIsWrittenIsRead};

/// The file of an image holds that image.
#[tactic(auto, using(crate::proofs::Written::what_is_written_is_read))]
pub fn what_is_written_is_read()
    ensures { WhatIsWrittenIsRead }
{}

/// Each image that a file of at most 16 MiB holds can be written.
pub fn what_is_read_can_be_written()
    ensures { WhatIsReadCanBeWritten }
{}
