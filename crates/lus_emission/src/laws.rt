//! What the code of classes does.

ghost use Rattle.lus_emission.specs.Laws.{CodeMakesClassSteps, CodeNests};

/// The calls of the code of classes are nested as those of the classes.
pub fn code_nests()
    ensures { CodeNests }
{}

/// The code of classes makes their steps.
pub fn code_makes_class_steps()
    ensures { CodeMakesClassSteps }
{}
