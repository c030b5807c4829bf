// Laws of codes and their texts.
ghost use Rattle.code_file.specs.Laws.{TextIsRead, OneText, NoTextBegins, TextIsShort};
ghost use Rattle.code_file.specs.Shape.{TextIffShape};

/// A code has a text exactly where it has Shape and its numbers are those of their types; its text is read
/// again, what is read is the text of a code and of no other, no text of a code begins another's, and each is
/// within 2,097,152 bytes. A call does nothing; its contract is these laws.
pub fn code_laws()
    ensures read { TextIsRead }
    ensures one { OneText }
    ensures beginning { NoTextBegins }
    ensures shape { TextIffShape }
    ensures short { TextIsShort }
{}
