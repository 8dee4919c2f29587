ghost use Rattle.std.specs.Prelude.{◌≡◌, ◌↔◌, ℕ, ◌<◌, List, [], ◌∷◌, All, Some, IsSome};
ghost use Rattle.percent_encoding.specs.AsciiSet.{should_percent_encode};
ghost use Rattle.sfx_script.specs.Faults.{GoesWrongAt, IsFirstWrongInLine};
ghost use Rattle.sfx_script.specs.Line.{IsLine};
ghost use Rattle.sfx_script.specs.Reading.{line_of};
ghost use Rattle.sfx_script.specs.Printed.{is_escaped, value_text};
ghost use Rattle.sfx_script.specs.Script.{words_of};
ghost use Rattle.sfx_script.specs.Word.{printed, value_of};
ghost use Rattle.sfx_script.specs.Wrong.{wrong_at};
ghost use Rattle.sfx_script.specs.declared.line.Line.{Line};
ghost use Rattle.sfx_script.specs.declared.printed.TheConstants.{VALUE_SET};

/// What is read is the line that the rows of the grammar make of the words, and bytes either are a line or go
/// wrong somewhere, and never both. `wrong_at` finds where they go wrong first.
pub fn lines_are_right()
    ensures rows { (line : List ℕ) (read : Line) → line_of line ≡ Some read → IsLine line read }
    ensures all { (line : List ℕ) (read : Line) → IsLine line read → line_of line ≡ Some read }
    ensures never { (line : List ℕ) (read : Line) (at : ℕ) → line_of line ≡ Some read → ¬ GoesWrongAt line at }
    ensures first { (line : List ℕ) (at : ℕ) → (wrong_at line ≡ Some at) ↔ IsFirstWrongInLine line at }
    ensures either { (line : List ℕ) → ((at : ℕ) → ¬ GoesWrongAt line at) → IsSome (line_of line) }
{}

/// The text of a value is one word of a line, and what it stands for is that value. The bytes that are escaped in
/// it are 0x00 to 0x20, 0x25, 0x7F and those from 0x80 on.
pub fn values_read_back()
    ensures same { (value : List ℕ) → All (λ b. b < 256) value → printed value_of (value_text value) ≡ Some value }
    ensures word { (value : List ℕ) → All (λ b. b < 256) value → words_of (value_text value) ≡ value_text value ∷ [] }
    ensures escaped { (b : ℕ) → b < 256 → should_percent_encode VALUE_SET b ≡ is_escaped b }
{}
