ghost use Rattle.tap_scenario.specs.SpellingLaws.{OtherNamesArePlain, OtherStepsArePlain, StepsStandForThemselves};

/// A text that is a step stands for that step alone. If names aren't as long as a digest, words write names digit by digit alone, and a
/// text stands for the step that it is and nothing else.
///
/// It does nothing: its contract is the law.
///
/// Rule: docs/FORMATS.md, "Salted names".
pub fn spellings_law()
    ensures plain { StepsStandForThemselves }
    ensures names { OtherNamesArePlain }
    ensures steps { OtherStepsArePlain }
{}
