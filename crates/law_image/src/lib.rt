//! Laws of the image of a Pcom's state (docs/FORMATS.md, "The image"). The statements stand in specs; these functions
//! have them as contracts.
#![tactic(auto)]

ghost use Rattle.law_image.specs.Laws.{IsExact, IsReadBack, IsReadSo};

/// Bytes are read as a state exactly where no field of theirs is told as one that doesn't fit.
pub fn bytes_are_an_image_or_stop_being_one()
    ensures { IsExact }
{}

/// The image of a state is read back as what it keeps of the state, where that fits the program, and as nothing else.
pub fn an_image_is_read_back()
    ensures back { IsReadBack }
    ensures only { IsReadSo }
{}
