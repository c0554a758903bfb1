//! Laws that check the definition of a script: against how it is written, and against scripts that
//! were worked by hand.

ghost use Rattle.std.specs.Prelude.{◌≡◌, ◌≤◌, ◌↔◌, ℕ, List, [], ◌∷◌, ◌++◌, length, Ok, Err, codes};
ghost use Rattle.std.specs.List.{AllByRecursion};
ghost use Rattle.c5_definitions.specs.Words.{Word};
ghost use Rattle.c5_definitions.specs.Lines.{lines_of, words_of};
ghost use Rattle.c5_definitions.specs.LineGrammar.{IsLine, ended_lines, IsLineOf};
ghost use Rattle.c5_definitions.specs.declared.script.ScriptKind.TheVariants as kinds;
ghost use Rattle.c5_definitions.specs.Script.{script_of, front_of};
ghost use Rattle.c5_definitions.specs.Worked.{worked_bytes};
ghost use Rattle.c5_definitions.specs.WorkedScripts.{table_text, table_parts, put_text, put_parts};
ghost use Rattle.c5_definitions.specs.WorkedScripts.{quoted_text, quoted_parts, all_text};
ghost use Rattle.c5_definitions.specs.WorkedScripts.{all_parts, bad_number_text, bad_type_text};
ghost use Rattle.c5_definitions.specs.WorkedScripts.{open_text, tab_text, quote_text, front_text};
ghost use Rattle.c5_definitions.specs.WorkedScripts.{forms_text, forms_parts};

/// Lines that are written one after the other are the lines of the bytes, also if the last has
/// no line end.
pub fn lines_read_back()
    ensures ended { (lines : List (List ℕ)) → AllByRecursion IsLine lines
        → lines_of (ended_lines lines) ≡ lines }
    ensures open_at_the_end { (lines : List (List ℕ)) (last : List ℕ) → AllByRecursion IsLine lines
        → IsLine last → 1 ≤ length last → lines_of (ended_lines lines ++ last)
        ≡ lines ++ last ∷ [] }
{}

/// The words of a line are those that are written there.
pub fn words_read_back()
    ensures { (words : List Word) (line : List ℕ) → words_of line ≡ Ok words ↔ IsLineOf words line }
{}

/// What scripts are.
pub fn worked_scripts()
    ensures put { script_of put_text ≡ Ok put_parts }
    ensures quoted { script_of quoted_text ≡ Ok quoted_parts }
    ensures all { script_of all_text ≡ Ok all_parts }
    ensures forms { script_of forms_text ≡ Ok forms_parts }
{}

/// The first faults of bytes that aren't scripts.
pub fn worked_script_faults()
    ensures number { script_of bad_number_text ≡ Err (record { line = 3; kind = kinds.Number }) }
    ensures wrong_type { script_of bad_type_text
        ≡ Err (record { line = 3; kind = kinds.WrongType }) }
    ensures unclosed { script_of open_text ≡ Err (record { line = 3; kind = kinds.Unclosed }) }
    ensures byte { script_of tab_text ≡ Err (record { line = 2; kind = kinds.Byte }) }
    ensures quote { script_of quote_text ≡ Err (record { line = 2; kind = kinds.Quote }) }
    ensures line_ends { script_of (codes "\n\n\n")
        ≡ Err (record { line = 4; kind = kinds.Unclosed }) }
    ensures no_bytes { script_of [] ≡ Err (record { line = 1; kind = kinds.Unclosed }) }
{}

/// What comes before a log, and what follows it.
pub fn worked_fronts()
    ensures log { front_of (front_text ++ worked_bytes) ≡ Ok (table_parts, worked_bytes) }
    ensures no_log { front_of table_text ≡ Err (record { line = 2; kind = kinds.Unclosed }) }
    ensures no_line_end { front_of (table_text ++ codes "log") ≡ Ok (table_parts, []) }
    ensures more_words { front_of (table_text ++ codes "log x\n")
        ≡ Err (record { line = 2; kind = kinds.Count }) }
    ensures in_a_block { front_of (open_text ++ codes "log\n")
        ≡ Err (record { line = 3; kind = kinds.Word }) }
    ensures before_a_table { front_of (codes "log\n")
        ≡ Err (record { line = 1; kind = kinds.Word }) }
{}
