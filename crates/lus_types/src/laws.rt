//! What the program keeps that a well-formed tree means.

ghost use Rattle.std.specs.Prelude.{◌≤◌, List, length};
ghost use Rattle.lus_syntax.specs.Lexemes.{Lexeme, Text};
ghost use Rattle.lus_syntax.specs.Tokens.{Tokens};
ghost use Rattle.lus_syntax.specs.Trees.{Tree as PlainTree};
ghost use Rattle.lus_spelling.specs.Declarations.{SpellsProgram};
ghost use Rattle.lus_program.specs.Parts.{program_parts};
ghost use Rattle.lus_source.specs.Meaning.{program_of};
ghost use Rattle.lus_types.specs.Laws.{MeantProgramsAreSound};

/// The program that a well-formed tree means is sound: its nodes are well typed, each output and local is defined once, each
/// constructor in its text is declared, its types are what they are named as, no node calls itself and no structure has itself among its fields, directly or
/// round, each structure has a field, and there are no more nodes, nor is a node or type larger, than a source may declare.
pub fn sound()
    ensures { MeantProgramsAreSound }
{}

/// A tree that the tokens of a text spell means a program of no more parts than the text has bytes, whether it is well typed or not.
pub fn few_parts()
    ensures { (text : Text) (tokens : List Lexeme) (tree : PlainTree) → Tokens text tokens → SpellsProgram tree tokens
        → program_parts (program_of tree) ≤ length text }
{}
