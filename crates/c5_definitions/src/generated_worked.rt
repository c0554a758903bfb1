//! The first transfers of generated scripts, against values that were computed elsewhere.

ghost use Rattle.std.specs.Prelude.{◌≡◌, length};
ghost use Rattle.c5_definitions.specs.Generated.{draw, transfer_of, generated_body};
ghost use Rattle.c5_definitions.specs.Generated.{generated_script};
ghost use Rattle.c5_definitions.specs.Replies.{in_reply_order};
ghost use Rattle.c5_definitions.specs.WorkedGenerated.{first_transfer, second_transfer};
ghost use Rattle.c5_definitions.specs.WorkedGenerated.{first_transfer_body};

/// The first two draws, and what they move.
pub fn worked_draws()
    ensures first { draw 1 ≡ 7806831264735756412 }
    ensures second { draw 2 ≡ 9396908728118811419 }
    ensures moves { transfer_of (draw 1) ≡ first_transfer }
    ensures moves_next { transfer_of (draw 2) ≡ second_transfer }
    ensures body { generated_body 1 ≡ first_transfer_body }
{}

/// How much a generated script has.
pub fn worked_sizes()
    ensures opening { length (generated_body 0) ≡ 64 }
    ensures bodies { length (generated_script 3).bodies ≡ 3 }
    ensures reads { length (in_reply_order (generated_script 3).reads) ≡ 16 }
{}
