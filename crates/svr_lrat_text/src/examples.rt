// Texts, and what they write.

ghost use Rattle.std.specs.Prelude.{◌≡◌, true};
ghost use Rattle.svr_lrat_text.specs.Examples as example;
ghost use Rattle.svr_lrat_text.specs.File.{file_words, is_file};
ghost use Rattle.svr_lrat_text.specs.Words.{tokens_of, words};

/// The tokens of a text with a comment, with their places.
pub fn commented()
    ensures { tokens_of example.commented ≡ example.commented_tokens }
{}

/// The file that a text with a clause, a lemma and a deletion writes.
pub fn small()
    ensures written { words (tokens_of example.small) ≡ file_words example.small_file }
    ensures within { is_file true example.small_file ≡ true }
{}
