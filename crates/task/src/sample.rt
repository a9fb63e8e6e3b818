ghost use Rattle.std.specs.Prelude.{◌≡◌};
ghost use Rattle.task.specs.Layouts.{Writing, laid};
ghost use Rattle.task.specs.Samples.{sample, SampleFile};

use crate::tables::Task;
use crate::write;
use rows::checks::MARK;
use rows::refusals::Refusal;

// Writes the file of the sample line, 97 bytes. Its gate (variable 0) is shut or open, its load (variable 1) is in the pit, on
// the belt or in the hopper; the load is wanted in the hopper.
pub fn write_sample(out: &mut [u8]) -> Result<usize, Refusal>
    ensures writing { record { answer = result; buffer = out.new } ≡ laid sample out.old }
    ensures file { SampleFile }
{
    write(
        &Task {
            values: &[2, 3],
            start: &[0, 0],
            goal: &[MARK, 2],
            // open, tip, run and carry: each its price, its condition and its effect
            moves: b"\x02\0\0\0\x00\xff\x01\xff\
                \x05\0\0\0\x01\x00\xff\x01\
                \x03\0\0\0\xff\x01\xff\x02\
                \x14\0\0\0\xff\x00\xff\x02",
            names: b"\x04open\x03tip\x03run\x05carry",
        },
        out,
    )
}
