//! What a log is, what state it leaves and how rows are printed; what a script is, what its
//! statements do, and what a serial run of it is: the definitions that the contracts of the other
//! crates cite, and the plain types that they speak of. Laws check them against logs, scripts and
//! runs that were worked out by hand.
#![tactic(auto)]

mod fault;
mod generated_worked;
mod history;
mod keys;
mod limits;
mod number_laws;
mod numbers_worked;
mod order_worked;
mod outputs;
mod script;
mod scripts_worked;
mod turns_worked;
mod worked;

pub use fault::{LogFault, LogKind};
pub use generated_worked::{worked_draws, worked_sizes};
pub use history::{Entry, Event, OrderBase};
pub use keys::Keys;
pub use limits::Excess;
pub use number_laws::{index_law, number_law};
pub use numbers_worked::{worked_index, worked_numbers};
pub use order_worked::{worked_conflict, worked_order};
pub use outputs::{lines_of_replies, one_order_and_places, worked_outputs, worked_replies};
pub use script::{ReadLine, Rel, ScriptFault, ScriptKind, Statement, TurnWord};
pub use scripts_worked::{
    lines_read_back, words_read_back, worked_fronts, worked_script_faults, worked_scripts,
};
pub use turns_worked::worked_turns;
pub use worked::{
    worked_answer, worked_bodies, worked_form_faults, worked_limits, worked_line_faults,
    worked_log, worked_log_faults, worked_rows, worked_serial_runs, worked_text_log,
    worked_text_rows,
};
