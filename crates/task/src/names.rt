ghost use Rattle.std.specs.Prelude.{◌≡◌, ℕ, ◌+◌, ◌^◌, ◌<◌, true, length};
ghost use Rattle.task.specs.Files.{named};
ghost use Rattle.task.specs.Answers.{LooksUp, NamesMove, LiesInFile};

use crate::accepted::Accepted;
use crate::faults::Fault;
use crate::first_name;
use crate::reader::read;

// Name k of lawful names that begin at a place, with the place of its first byte.
fn look_up(names: &[u8], base: usize, k: usize) -> Option<(&[u8], usize)>
    requires lawful { (m : ℕ) × (named m names.now ≡ true) }
    requires within { base + length names.now < 2 ^ 64 }
    ensures { LooksUp base names.now k result }
{
    let mut rest = names;
    for _i in 0..k {
        let (_, after) = first_name(rest)?;
        rest = after;
    }
    let (name, after) = first_name(rest)?;
    Some((name, base + names.len() - after.len() - name.len()))
}

impl<'a> Accepted<'a> {
    // The name of move k, with the place of its first byte among the names; nothing if there is no such move.
    pub fn name(&self, k: usize) -> Option<(&'a [u8], usize)>
        ensures { LooksUp 0 self.now.task.names.now k result }
    {
        look_up(self.task.names, 0, k)
    }
}

// The name of a move, as that part of the file, with the place of its first byte; nothing if there is no such move.
pub fn name(file: &[u8], number: u16) -> Result<Option<(&[u8], usize)>, Fault>
    ensures naming { NamesMove file.now number result }
    ensures part { LiesInFile file.now result }
{
    let names = read(file)?.task.names;
    let base = file.len() - names.len();
    Ok(look_up(names, base, usize::from(number)))
}
