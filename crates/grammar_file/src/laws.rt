// What holds of grammar files. Each body is empty: its contract is the law.
ghost use Rattle.grammar_file.specs.Laws.{EqualFilesHaveEqualParts, NumbersAreReadBack, NumbersAreShortest};

/// Where rules are grammars, equal files have equal names, equal rules and equal texts.
pub fn equal_files_have_equal_parts()
    ensures { EqualFilesHaveEqualParts }
{}

/// The bytes of a number are read as that number by unsigned LEB128 (DWARF 5, section 7.6), and no fewer bytes are.
pub fn numbers_are_read_back()
    ensures read { NumbersAreReadBack }
    ensures shortest { NumbersAreShortest }
{}
