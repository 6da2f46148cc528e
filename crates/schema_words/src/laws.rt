//! What follows of the words of schemas, whatever they are.

ghost use Rattle.std.specs.Prelude.{◌≡◌};
ghost use Rattle.header_types.specs.Fields.{SchemaTree, Text};
ghost use Rattle.schema_words.specs.Spelling.{SpellsSchema};

/// Words tell one schema at most: no two types have the same words, and a part of the words is one field at most.
pub fn words_are_one()
    ensures { (words : Text) (one other : SchemaTree) → SpellsSchema words one → SpellsSchema words other → one ≡ other }
{}
