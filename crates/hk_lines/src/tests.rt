//! The laws of lines at a machine.
ghost use Rattle.std.specs.Prelude.{ℕ, List, []};
ghost use Rattle.hk_lines.specs.Given.{goes};
ghost use Rattle.hk_lines.specs.Lines.{takes};
ghost use Rattle.hk_lines.specs.declared.status.Status.TheVariants.{Done};

use crate::{
    LineByLine, LineMachine, cuts_joined, cuts_pieces, fuses, reads_named, reads_shaped,
    reads_spelled, stays_due,
};

// A machine that counts its lines and prints nothing.
#[derive(Drop)]
struct Tally {
    count: u64,
}

impl LineByLine for Tally {
    ghost turn = { λ tally line. goes tally [] };
}

impl LineMachine for Tally {
    ghost Line = { List ℕ };

    ghost Order = { ℕ };

    ghost read = { λ order line. takes order line };

    ghost machine = { record {
      step = λ tally line. (tally, []);
      final_text = λ tally. [];
      final_status = λ tally. Done;
    } };
}

#[test]
fn laws_hold_at_a_machine(rt: HostRuntime) {
    reads_spelled();
    reads_named();
    reads_shaped();
    cuts_joined();
    cuts_pieces();
    stays_due::<Tally>();
    fuses::<Tally>();
    let tally = Tally { count: 0 };
    assert_eq!(rt; tally.count, 0);
}
