//! What words keep of values.

ghost use Rattle.lus_program.specs.Programs.{Program};
ghost use Rattle.lus_typed_streams.specs.Types.{Constructors};
ghost use Rattle.lus_words.specs.Operations.{EqualByWords, IfByWords, StructuresByWords};
ghost use Rattle.lus_words.specs.Laws.{DecodesEncoded, EntriesFit, FieldsAreSlices, LayoutsAreShallow, LayoutsAreUnique, SameAsWords, SizesAreLeaves, StructuresAreJoined, TypesHaveLayouts, WordsAreAllTheSize, WordsHaveTypes};

/// A type of a program without recursion has one layout, with as many words as it has leaves, and each entry has that many
/// words. The words of an entry of a type have the types of their places, and the entry is read back from them. A field's
/// words lie at its offset, a structure's words are those of its fields, or nil in each place where one of these is nil, and
/// values of one type are the same where their words are.
pub fn values_are_words()
    ensures unique { LayoutsAreUnique }
    ensures leaves { SizesAreLeaves }
    ensures long { WordsAreAllTheSize }
    ensures typed { (p : Program) (constructors : Constructors) → WordsHaveTypes p constructors }
    ensures read { (p : Program) (constructors : Constructors) → DecodesEncoded p constructors }
    ensures fields { (p : Program) (constructors : Constructors) → FieldsAreSlices p constructors }
    ensures alike { (p : Program) (constructors : Constructors) → SameAsWords p constructors }
    ensures structures { (p : Program) (constructors : Constructors) → StructuresAreJoined p constructors }
    ensures fit { (p : Program) (constructors : Constructors) → EntriesFit p constructors }
    ensures some { TypesHaveLayouts }
    ensures shallow { LayoutsAreShallow }
{}

/// Equality and `if` of values of one type, or nil, are those of their words, one by one. A structure's words are those of its
/// fields, each in an `if` whose condition has the fields' first words equal to themselves.
pub fn operators_go_by_words()
    ensures equal { (p : Program) (constructors : Constructors) → EqualByWords p constructors }
    ensures chosen { (p : Program) (constructors : Constructors) → IfByWords p constructors }
    ensures structures { (p : Program) (constructors : Constructors) → StructuresByWords p constructors }
{}
