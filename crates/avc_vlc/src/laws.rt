//! Laws of the tables.
ghost use Rattle.avc_vlc.specs.Laws.{TablesArePrefixFree, TablesAreRead, WordsAreRead};
ghost use Rattle.avc_vlc.specs.Laws.{WordsAreTheOnlyOnes, WordsAreWhole};

/// No codeword of a table is a proper prefix of another.
pub fn tables_are_prefix_free()
    ensures { TablesArePrefixFree }
{}

/// Each table is read as the set of its codewords.
pub fn tables_are_read()
    ensures { TablesAreRead }
{}

/// Each codeword that is written is read as its value, whatever comes after it.
pub fn words_are_read()
    ensures { WordsAreRead }
{}

/// All that a block can need has a codeword.
pub fn words_are_whole()
    ensures { WordsAreWhole }
{}

/// No other codeword is read as the same value.
pub fn words_are_the_only_ones()
    ensures { WordsAreTheOnlyOnes }
{}
