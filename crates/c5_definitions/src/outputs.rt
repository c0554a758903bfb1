//! Laws of what `clone` prints, and outputs that were worked by hand.

ghost use Rattle.std.specs.Prelude.{◌≡◌, List, ◌∷◌, []};
ghost use Rattle.std.specs.List.{AllByRecursion};
ghost use Rattle.c5_rows.specs.declared.tables.TableDef.{TableDef};
ghost use Rattle.c5_definitions.specs.FitsScript.{IsRead};
ghost use Rattle.c5_definitions.specs.Lawful.{IsLawfulTable};
ghost use Rattle.c5_definitions.specs.Outputs.{clone_text, HasItsLines, OneOrderAndPlaces};
ghost use Rattle.c5_definitions.specs.Replies.{in_reply_order, AreLawfulPlaces};
ghost use Rattle.c5_definitions.specs.ScriptParts.{ReadParts, ScriptParts};
ghost use Rattle.c5_definitions.specs.WorkedOutputs.{read_a, sum_a, quiet_script, quiet_text};
ghost use Rattle.c5_definitions.specs.WorkedOutputs.{busy_script, put_first_text, add_first_text};

/// What `clone` prints for a script is the text of at most one order and one list of places.
pub fn one_order_and_places()
    ensures { (script : ScriptParts) → OneOrderAndPlaces script }
{}

/// A reply has a line for its head and one for each line of its read block.
pub fn lines_of_replies()
    ensures { (tables : List TableDef) (read : ReadParts) → AllByRecursion IsLawfulTable tables
        → IsRead read → HasItsLines tables read }
{}

/// Reads are replied to by session, and places are lawful unless they fall within a session.
pub fn worked_replies()
    ensures order { in_reply_order busy_script.reads ≡ sum_a 1 ∷ read_a 2 ∷ read_a 2 ∷ [] }
    ensures rising { AreLawfulPlaces (in_reply_order busy_script.reads) 2 (2 ∷ 0 ∷ 1 ∷ []) }
    ensures falling { AreLawfulPlaces (in_reply_order busy_script.reads) 2 (2 ∷ 1 ∷ 0 ∷ []) → ⊥ }
    ensures too_late { AreLawfulPlaces (in_reply_order busy_script.reads) 1 (2 ∷ 0 ∷ 1 ∷ []) → ⊥ }
{}

/// What `clone` prints for scripts that were worked by hand.
pub fn worked_outputs()
    ensures quiet { clone_text quiet_script [] (0 ∷ []) ≡ quiet_text }
    ensures put_first { clone_text busy_script (0 ∷ 1 ∷ []) (2 ∷ 0 ∷ 1 ∷ []) ≡ put_first_text }
    ensures add_first { clone_text busy_script (1 ∷ 0 ∷ []) (1 ∷ 1 ∷ 2 ∷ []) ≡ add_first_text }
{}
