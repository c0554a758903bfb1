//! The law that relates what a body does over answered reads to what it does on a state.

ghost use Rattle.std.specs.Prelude.{◌≡◌, Bool, List};
ghost use Rattle.c5_rows.specs.declared.writes.Write.{Write};
ghost use Rattle.c5_rows.specs.declared.answer.AnswerLine.{AnswerLine};
ghost use Rattle.c5_rows.specs.State.{State};
ghost use Rattle.c5_definitions.specs.declared.script.Statement.{Statement};
ghost use Rattle.c5_definitions.specs.ScriptParts.{ReadParts};
ghost use Rattle.c5_definitions.specs.Eval.{eval};
ghost use Rattle.c5_definitions.specs.Follows.{Read, Follows, AnsweredBy};
ghost use Rattle.c5_definitions.specs.Answers.{IsAnswered, answer_of};

/// If each read is answered as a state answers it, a body ends as it does on that state, and the
/// answer to a read block is that state's.
pub fn evaluation_law()
    ensures bodies { (body : List Statement) (state : State) (reads : List Read) (declined : Bool)
        (writes : List Write) → Follows body reads declined writes → AnsweredBy state reads
        → eval body state ≡ record { declined = declined; writes = writes } }
    ensures answers { (read : ReadParts) (state : State) (reads : List Read)
        (answer : List AnswerLine) → IsAnswered read.lines reads answer → AnsweredBy state reads
        → answer ≡ answer_of read state }
{}
