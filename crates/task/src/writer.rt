ghost use Rattle.std.specs.Prelude.{◌≡◌, ◌+◌, ◌<◌, ◌≤◌, ◌++◌, length, take};
ghost use Rattle.rows.specs.Calls.{over};
ghost use Rattle.task.specs.Answers.{held};
ghost use Rattle.task.specs.Layouts.{entry, contents, parts, layout, total, Writing, writing, ReadsBack};

use crate::addressable::Addressable;
use crate::reader::CONTENTS;
use crate::tables::Task;
use rows::refusals::Refusal;

// Writes a piece into a buffer at a place, and answers where it ends.
fn put(out: &mut [u8], at: usize, piece: &[u8]) -> usize
    requires { at + length piece.now ≤ length out.old }
    ensures end { result ≡ at + length piece.now }
    ensures after { out.new ≡ over (take at out.old ++ piece.now) out.old }
{
    let end = at + piece.len();
    out[at..end].copy_from_slice(piece);
    end
}

// Writes the entry of a body that begins at this place, and answers where the body ends.
fn put_entry(out: &mut [u8], at: usize, place: u32, body: &[u8]) -> u32
    requires room { at + 8 ≤ length out.old }
    requires small { place + length body.now < 4294967296 }
    ensures end { result ≡ place + length body.now }
    ensures after { out.new ≡ over (take at out.old ++ entry place (length body.now)) out.old }
{
    // as: it fits by what is required, and u32::try_from would bring an error that cannot be
    let size = body.len() as u32;
    let middle = put(out, at, &place.to_le_bytes());
    put(out, middle, &size.to_le_bytes());
    place + size
}

// The bodies stand one by one, since they go by their names.
impl Addressable<'_> {
    // Writes the contents: an entry for each body.
    fn put_contents(&self, out: &mut [u8])
        requires { 40 ≤ length out.old }
        ensures { out.new ≡ over (contents (held self.now.task)) out.old }
    {
        let task = self.task;
        let start = put_entry(out, 0, CONTENTS as u32, task.values);
        let goal = put_entry(out, 8, start, task.start);
        let moves = put_entry(out, 16, goal, task.goal);
        let names = put_entry(out, 24, moves, task.moves);
        put_entry(out, 32, names, task.names);
    }

    // Writes the five bodies behind the contents, and answers where they end.
    fn put_bodies(&self, out: &mut [u8]) -> usize
        requires { total (held self.now.task) ≤ length out.old }
        ensures end { result ≡ total (held self.now.task) }
        ensures after { out.new ≡ over (take 40 out.old ++ parts (held self.now.task)) out.old }
    {
        let task = self.task;
        let start = put(out, CONTENTS, task.values);
        let goal = put(out, start, task.start);
        let moves = put(out, goal, task.goal);
        let names = put(out, moves, task.moves);
        put(out, names, task.names)
    }

    // How long the layout is.
    fn size(&self) -> usize
        ensures { result ≡ total (held self.now.task) }
    {
        let task = self.task;
        CONTENTS
            + task.values.len()
            + task.start.len()
            + task.goal.len()
            + task.moves.len()
            + task.names.len()
    }

    // Writes the layout, and answers its length.
    fn put_task(&self, out: &mut [u8]) -> usize
        requires { total (held self.now.task) ≤ length out.old }
        ensures end { result ≡ total (held self.now.task) }
        ensures after { out.new ≡ over (layout (held self.now.task)) out.old }
    {
        self.put_contents(out);
        self.put_bodies(out)
    }
}

// Writes the layout of the bodies if they are sound and it fits the buffer.
fn fill(task: &Task<'_>, out: &mut [u8]) -> Result<usize, Refusal>
    ensures { record { answer = result; buffer = out.new } ≡ writing (held task.now) out.old }
{
    task.check()?;
    let bodies = Addressable { task: *task };
    if out.len() < bodies.size() {
        return Err(Refusal::ShortBuffer);
    }
    Ok(bodies.put_task(out))
}

// Writes a task file from its five bodies, and answers its length. The bodies are checked as the reader checks them.
pub fn write(task: &Task<'_>, out: &mut [u8]) -> Result<usize, Refusal>
    ensures writing { record { answer = result; buffer = out.new } ≡ writing (held task.now) out.old }
    ensures read_back { ReadsBack (held task.now) out.new result }
{
    fill(task, out)
}
