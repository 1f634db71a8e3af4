//! What the lines of a text and the words of a line are.

ghost use Rattle.std.specs.Prelude.{◌≡◌, ◌≤◌, ◌==◌, ℕ, true, List, [], ◌∷◌, ◌++◌, length};
ghost use Rattle.pipe_ends.specs.Words.{HasNo, is_blank, lines_of, without_return, words_of};

/// A text is its lines: each ends with a line feed, and the last one may end with the text.
pub fn texts_are_their_lines()
    ensures empty { lines_of [] ≡ [] }
    ensures ended { (line rest : List ℕ) → HasNo (λ c. c == 10) line
        → lines_of (line ++ 10 ∷ rest) ≡ without_return line ∷ lines_of rest }
    ensures last { (line : List ℕ) → HasNo (λ c. c == 10) line → 1 ≤ length line
        → lines_of line ≡ line ∷ [] }
    ensures carriage { (line : List ℕ) → without_return (line ++ 13 ∷ []) ≡ line }
{}

/// A line is its words: bytes without a blank, with blanks between them and around them.
pub fn lines_are_their_words()
    ensures empty { words_of [] ≡ [] }
    ensures blank { (c : ℕ) (line : List ℕ) → is_blank c ≡ true
        → words_of (c ∷ line) ≡ words_of line }
    ensures ended { (word line : List ℕ) (c : ℕ) → HasNo is_blank word → 1 ≤ length word
        → is_blank c ≡ true → words_of (word ++ c ∷ line) ≡ word ∷ words_of line }
    ensures last { (word : List ℕ) → HasNo is_blank word → 1 ≤ length word
        → words_of word ≡ word ∷ [] }
{}
