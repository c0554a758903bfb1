//! Laws that check definitions against values that were worked out by hand. The checker computes
//! both sides.

ghost use Rattle.std.specs.Prelude.{◌+◌, ◌≡◌, [], ◌∷◌, None, Some};
ghost use Rattle.std.specs.FinMap.{empty};
ghost use Rattle.c5_rows.specs.Order.{row_name_cmp};
ghost use Rattle.c5_rows.specs.State.{state_after};
ghost use Rattle.c5_definitions.specs.Answers.{answer_of};
ghost use Rattle.c5_definitions.specs.Lawful.{Spells};
ghost use Rattle.c5_definitions.specs.Limits.{write_statements, written_row_count, excess_in};
ghost use Rattle.c5_definitions.specs.Limits.{excess_of};
ghost use Rattle.c5_definitions.specs.SerialRun.{serial_txns};
ghost use Rattle.c5_definitions.specs.Texts.{rows_text};
ghost use Rattle.c5_definitions.specs.Worked.{worked_tables, worked_txns, worked_bytes};
ghost use Rattle.c5_definitions.specs.Worked.{worked_text, text_tables, text_txns, text_bytes};
ghost use Rattle.c5_definitions.specs.Worked.{text_text};
ghost use Rattle.c5_definitions.specs.WorkedLogFaults.{HaveFaults, header_faults, frame_faults};
ghost use Rattle.c5_definitions.specs.WorkedLogFaults.{place_faults, cut_faults};
ghost use Rattle.c5_definitions.specs.WorkedRuns.{EndSo, statement_cases, need_cases, start};
ghost use Rattle.c5_definitions.specs.WorkedRuns.{sequence_cases};
ghost use Rattle.c5_definitions.specs.WorkedRuns.{run_bodies, run_in_order, run_reversed};
ghost use Rattle.c5_definitions.specs.WorkedRuns.{read_block, read_answer, counted_bodies};
ghost use Rattle.c5_definitions.specs.WorkedScripts.{put_parts};
ghost use Rattle.c5_definitions.specs.WorkedScriptFaults.{HaveScriptFaults, line_faults};
ghost use Rattle.c5_definitions.specs.WorkedScriptFaults.{count_faults, word_faults};
ghost use Rattle.c5_definitions.specs.WorkedScriptFaults.{unknown_faults};
ghost use Rattle.c5_definitions.specs.WorkedScriptFaults.{form_faults, name_faults};
ghost use Rattle.c5_definitions.specs.WorkedScriptFaults.{later_word_faults, limit_faults};
ghost use Rattle.c5_definitions.specs.WorkedScriptFaults.{HaveTurnFaults, turn_faults};
ghost use Rattle.c5_rows.specs.Sizes.{max_transactions, max_writes, max_rows};

use crate::limits::Excess;

/// The bytes of a log are its spelling.
pub fn worked_log()
    ensures { Spells worked_bytes worked_tables worked_txns }
{}

/// The rows after that log have this text.
pub fn worked_rows()
    ensures { rows_text worked_tables (state_after (empty {R = row_name_cmp}) worked_txns 1)
        ≡ worked_text }
{}

/// The same of a log with a text cell and a number below 0.
pub fn worked_text_log()
    ensures { Spells text_bytes text_tables text_txns }
{}

/// The rows after that log have this text.
pub fn worked_text_rows()
    ensures { rows_text text_tables (state_after (empty {R = row_name_cmp}) text_txns 1)
        ≡ text_text }
{}

/// The first faults of bytes that aren't logs.
pub fn worked_log_faults()
    ensures of_headers { HaveFaults header_faults }
    ensures of_frames { HaveFaults frame_faults }
    ensures of_places { HaveFaults place_faults }
    ensures of_ends { HaveFaults cut_faults }
{}

/// The first faults of bytes that aren't scripts: one for each test of a line.
pub fn worked_line_faults()
    ensures lines { HaveScriptFaults line_faults }
    ensures counts { HaveScriptFaults count_faults }
    ensures words { HaveScriptFaults word_faults }
    ensures limits { HaveScriptFaults limit_faults }
    ensures turns { HaveTurnFaults turn_faults }
{}

/// The same in each form of line.
pub fn worked_form_faults()
    ensures places { HaveScriptFaults unknown_faults }
    ensures counts { HaveScriptFaults form_faults }
    ensures names { HaveScriptFaults name_faults }
    ensures words { HaveScriptFaults later_word_faults }
{}

/// How bodies end: each form of statement by itself, each relation, and two statements.
pub fn worked_bodies()
    ensures statements { EndSo statement_cases }
    ensures needs { EndSo need_cases }
    ensures sequences { EndSo sequence_cases }
{}

/// The transactions of two bodies in both orders.
pub fn worked_serial_runs()
    ensures in_order { serial_txns run_bodies start (0 ∷ 1 ∷ []) ≡ run_in_order }
    ensures reversed { serial_txns run_bodies start (1 ∷ 0 ∷ []) ≡ run_reversed }
{}

/// The answer to a read block.
pub fn worked_answer()
    ensures { answer_of read_block start ≡ read_answer }
{}

/// What is counted of bodies, and which limit comes first.
pub fn worked_limits()
    ensures writes { write_statements counted_bodies ≡ 4 }
    ensures rows { written_row_count counted_bodies ≡ 2 }
    ensures of_a_script { excess_of put_parts ≡ None }
    ensures none { excess_in max_transactions max_writes max_rows ≡ None }
    ensures transactions_first { excess_in 65537 262145 65537 ≡ Some Excess.Transactions }
    ensures writes_next { excess_in max_transactions (max_writes + 1) (max_rows + 1)
        ≡ Some Excess.Writes }
    ensures rows_last { excess_in max_transactions max_writes (max_rows + 1) ≡ Some Excess.Rows }
{}
