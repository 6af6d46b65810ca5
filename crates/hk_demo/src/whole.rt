//! The demo.
ghost use Rattle.std.specs.Prelude.{◌≡◌, ◌≤◌, IfOk};
ghost use Rattle.hk_demo.specs.Summary.{summary};

use crate::demo_lines::{begin, pay};
use crate::play::Play;
use crate::summary::Summary;
use hk_base::NoMemory;
use hk_lines::InputLine;
use std::alloc::Global;

/// Makes the lines of the demo of n Payments, at most 100,000, one at a time, takes each as the command `replay` takes
/// its lines, and gives the summary.
///
/// # Errors
///
/// `NoMemory` where memory ran out.
pub fn demo(alloc: Global, n: u32) -> Result<Summary, NoMemory>
    requires most { n ≤ 100000 }
    ensures summary { IfOk result (λ told. told ≡ summary n) }
{
    let mut play = Play::new(alloc);
    begin(alloc, &mut play)?;
    pay(alloc, &mut play, n)?;
    play.line(alloc, &InputLine::End)?;
    Ok(play.summary())
}
