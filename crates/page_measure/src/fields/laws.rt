// The laws of relocated fields over all pieces of a module's text: what clearing and judging them piece by piece says of the
// whole text.

ghost use Rattle.page_measure.specs.Laws.{MaskLaw, RightLaw};

/// The pieces of a text with their fields cleared are the text with all of its fields cleared.
pub fn law_mask()
    ensures { MaskLaw }
{}

/// All fields of a text are right exactly where those of each of its pieces are.
pub fn law_fields_right()
    ensures { RightLaw }
{}
