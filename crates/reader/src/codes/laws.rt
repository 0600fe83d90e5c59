//! What the code form promises: each input has one answer, at the earliest place, and what is written is read back.
ghost use Rattle.reader.specs.CodePrint.{ReadBack};
ghost use Rattle.reader.specs.CodeTotal.{OneAnswer};
ghost use Rattle.reader.specs.Codes.{OneReading, OneRefusal, NeverBoth, Earliest};
ghost use Rattle.reader.specs.FeatureCodes.{HeadsWhole};

/// An input has one reading or one refusal, and not both.
/// What stands before the place of a refusal could still become a rule, the limit on length aside.
pub fn codes_have_one_answer()
    ensures reading { OneReading }
    ensures refusal { OneRefusal }
    ensures apart { NeverBoth }
    ensures earliest { Earliest }
    ensures total { OneAnswer }
{}

/// A whole feature code stands at the place of each head.
pub fn codes_have_heads()
    ensures { HeadsWhole }
{}

/// A rule that is written in codes is read back.
pub fn codes_are_read_back()
    ensures { ReadBack }
{}
